/// Where in the configuration a fault stands.
#[derive(Clone, Copy, Debug, PartialEq, Eq)]
pub enum ConfigPlace {
    /// In the top object, or in its `rate`, `traffic` or `internal`.
    Top,
    /// In the class of this index, from 0, or of 2^32 - 1 where the index is greater.
    Class(u32),
    /// In the event of this index, from 0, or of 2^32 - 1 where the index is greater.
    Event(u32),
}

/// Why data are no configuration.
#[derive(Clone, Copy, Debug, PartialEq, Eq)]
pub struct ConfigFault {
    /// 1 to 26; docs/CONFIGURATION.md lists them.
    pub number: u8,
    pub place: ConfigPlace,
}
