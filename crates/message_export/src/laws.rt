//! What a reader of the two formats can tell of the messages.

ghost use Rattle.std.specs.Prelude.{◌≡◌, ◌≤◌, ◌<◌, ◌^◌, ℕ, List, length, map};
ghost use Rattle.std.specs.List.{AllByRecursion};
ghost use Rattle.ids_frame.specs.{FitsMessage, MessageParts, AreMessages, spelling};
ghost use Rattle.message_export.specs.Capture.{exported_pcap, told_of};
ghost use Rattle.message_export.specs.JsonLines.{json_line};

/// A line tells one message, and where it stands.
#[tactic(auto, using(crate::proofs::ReaderLaws::line_lem))]
pub fn a_line_tells_one_message()
    ensures { (at place : ℕ) (m n : MessageParts) → at < 2 ^ 64 → place < 2 ^ 64 → FitsMessage m → FitsMessage n
        → json_line at m ≡ json_line place n → (at ≡ place) × (m ≡ n) }
{}

/// A capture tells of each message how many bytes it has, and the first 262,144 of them. So it tells messages that
/// have no more.
#[tactic(auto, using(crate::proofs::ReaderLaws::told_lem, crate::proofs::ReaderLaws::short_lem))]
pub fn a_capture_tells_its_messages()
    ensures told { (messages others : List MessageParts) → AreMessages messages → AreMessages others
        → exported_pcap messages ≡ exported_pcap others → map told_of messages ≡ map told_of others }
    ensures short { (messages others : List MessageParts) → AreMessages messages → AreMessages others
        → AllByRecursion (λ m. length (spelling m) ≤ 262144) messages
        → exported_pcap messages ≡ exported_pcap others → messages ≡ others }
{}
