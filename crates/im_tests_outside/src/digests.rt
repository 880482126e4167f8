use im_digest::{D32, Hash32, Sha, Sum};
use std::test::Fail;

// NIST's examples for FIPS 180-4: the empty message, one block (whole and in parts), and two blocks.
const KNOWN: [(&str, &str, &str, &str); 4] = [
    (
        "",
        "",
        "",
        "e3b0c44298fc1c149afbf4c8996fb92427ae41e4649b934ca495991b7852b855",
    ),
    (
        "abc",
        "",
        "",
        "ba7816bf8f01cfea414140de5dae2223b00361a396177a9cb410ff61f20015ad",
    ),
    (
        "a",
        "b",
        "c",
        "ba7816bf8f01cfea414140de5dae2223b00361a396177a9cb410ff61f20015ad",
    ),
    (
        "abcdbcdecdefdefgefghfghighijhijk",
        "ijkljklmklmn",
        "lmnomnopnopq",
        "248d6a61d20638b8e5c026930c3e6039a33ce45964ff2167f6ecedd419db06c1",
    ),
];

fn digest_of(text: &str) -> Option<D32> {
    let mut digest = [0u8; 32];
    match hex::decode_to_slice(text, &mut digest) {
        Ok(()) => Some(digest),
        Err(_) => None,
    }
}

#[test]
fn sha_256_of_known_messages(rt: HostRuntime) {
    for (a, b, c, want) in KNOWN {
        let digest = Sha.hash(a.as_bytes(), b.as_bytes(), c.as_bytes());
        assert!(rt; Some(digest) == digest_of(want), "of {a}{b}{c}");
    }
}

// 97 + 98 + 99 is 294, and 38 above 256.
#[test]
fn sum_of_octets(rt: HostRuntime) {
    let mut sum = [0u8; 32];
    sum[31] = 38;
    assert!(rt; Sum.hash(b"a", b"b", b"c") == sum);
}
