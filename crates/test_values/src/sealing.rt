//! Tags.

use frame_auth::{Key, tag};
use std::test::*;

/// The test cases of RFC 4231 whose key has at most 64 bytes: the key, the data, and the tag, of which the last case
/// has the first 16 bytes alone.
const PUBLISHED: &str =
    "0b0b0b0b0b0b0b0b0b0b0b0b0b0b0b0b0b0b0b0b 4869205468657265 b0344c61d8db38535ca8afceaf0bf12b881dc200c9833da726e9376c2e32cff7
4a656665 7768617420646f2079612077616e7420666f72206e6f7468696e673f 5bdcc146bf60754e6a042426089575c75a003f089d2739839dec58b964ec3843
aaaaaaaaaaaaaaaaaaaaaaaaaaaaaaaaaaaaaaaa dddddddddddddddddddddddddddddddddddddddddddddddddddddddddddddddddddddddddddddddddddddddddddddddddddd 773ea91e36800e46854db8ebd09181a72959098b3ef8c122d9635514ced565fe
0102030405060708090a0b0c0d0e0f10111213141516171819 cdcdcdcdcdcdcdcdcdcdcdcdcdcdcdcdcdcdcdcdcdcdcdcdcdcdcdcdcdcdcdcdcdcdcdcdcdcdcdcdcdcdcdcdcdcdcdcdcdcd 82558a389a443c0ea4cc819899f2083a85f0faa3e578f8077a2e3ff46729665b
0c0c0c0c0c0c0c0c0c0c0c0c0c0c0c0c0c0c0c0c 546573742057697468205472756e636174696f6e a3b6167473100ee06e0c796c2955552b";

// The tag of the data, cut in two.
fn tag_of(key: &[u8], data: &[u8]) -> Result<[u8; 32], Fail> {
    let key = Key::make(key).ok_or("a key")?;
    let (front, back) = data.split_at(data.len() / 2);
    Ok(tag(&key, front, back))
}

#[test]
fn tags_are_those_of_the_standard(rt: HostRuntime) -> Result<(), Fail> {
    for line in PUBLISHED.lines() {
        let (key, rest) = line.split_once(" ").ok_or("a key")?;
        let (data, wanted) = rest.split_once(" ").ok_or("a tag")?;
        let key = hex::decode(rt.alloc(), key)?;
        let data = hex::decode(rt.alloc(), data)?;
        let wanted = hex::decode(rt.alloc(), wanted)?;
        assert!(rt; tag_of(&key, &data)?.starts_with(&wanted));
    }
    assert!(rt; Key::make(b"").is_none() && Key::make(&[0; 65]).is_none());
    Ok(())
}
