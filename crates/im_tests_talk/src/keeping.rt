//! What a client keeps, how a message is written, and what is told of a line.

use im_client::faults::LineFault;
use im_client::texts::refused_text;
use im_digest::Sum;
use im_facts::clients::FactClient;
use im_proof::faults::DualFault;
use im_wire::reading::read_message;
use im_wire::writing::write;
use std::alloc::{AllocError, Global};
use std::test::Fail;

// The state of a history of seven transactions, under the sum of octets.
const STATE: &str = "\
    {\"header\":{\"blRoot\":\"00000000000000000000000000000000000000000000000000000000000000\
    f4\",\"blTxId\":5,\"eh\":\"0000000000000000000000000000000000000000000000000000000000000\
    00d\",\"id\":7,\"md\":\"\",\"nentries\":1,\"prevAlh\":\"00000000000000000000000000000000\
    00000000000000000000000000000060\",\"ts\":1,\"version\":1},\"type\":\"state\"}";

// A dual proof whose target has the ends of the numbers' ranges.
const DUAL: &str = "\
    {\"dual\":{\"consistency\":[\"c2c2c2c2c2c2c2c2c2c2c2c2c2c2c2c2c2c2c2c2c2c2c2c2c2c2c2c2c2\
    c2c2c2\"],\"inclusion\":[\"a0a0a0a0a0a0a0a0a0a0a0a0a0a0a0a0a0a0a0a0a0a0a0a0a0a0a0a0a0a0a\
    0a0\",\"b1b1b1b1b1b1b1b1b1b1b1b1b1b1b1b1b1b1b1b1b1b1b1b1b1b1b1b1b1b1b1b1\"],\"lastInclus\
    ion\":[],\"linear\":[\"e4e4e4e4e4e4e4e4e4e4e4e4e4e4e4e4e4e4e4e4e4e4e4e4e4e4e4e4e4e4e4e4\
    \"],\"linearAdvance\":{\"inclusions\":[[\"1717171717171717171717171717171717171717171717\
    171717171717171717\"],[]],\"terms\":[\"f5f5f5f5f5f5f5f5f5f5f5f5f5f5f5f5f5f5f5f5f5f5f5f5f\
    5f5f5f5f5f5f5f5\",\"0606060606060606060606060606060606060606060606060606060606060606\"]}\
    ,\"source\":{\"blRoot\":\"1a1a1a1a1a1a1a1a1a1a1a1a1a1a1a1a1a1a1a1a1a1a1a1a1a1a1a1a1a1a1a\
    1a\",\"blTxId\":2,\"eh\":\"3c3c3c3c3c3c3c3c3c3c3c3c3c3c3c3c3c3c3c3c3c3c3c3c3c3c3c3c3c3c3\
    c3c\",\"id\":5,\"md\":\"00ff\",\"nentries\":2,\"prevAlh\":\"2b2b2b2b2b2b2b2b2b2b2b2b2b2b\
    2b2b2b2b2b2b2b2b2b2b2b2b2b2b2b2b2b2b\",\"ts\":-3,\"version\":1},\"target\":{\"blRoot\":\
    \"4d4d4d4d4d4d4d4d4d4d4d4d4d4d4d4d4d4d4d4d4d4d4d4d4d4d4d4d4d4d4d4d\",\"blTxId\":4,\"eh\"\
    :\"6f6f6f6f6f6f6f6f6f6f6f6f6f6f6f6f6f6f6f6f6f6f6f6f6f6f6f6f6f6f6f6f\",\"id\":18446744073\
    709551615,\"md\":\"\",\"nentries\":4294967295,\"prevAlh\":\"5e5e5e5e5e5e5e5e5e5e5e5e5e5e\
    5e5e5e5e5e5e5e5e5e5e5e5e5e5e5e5e5e5e\",\"ts\":9223372036854775807,\"version\":65535},\"t\
    argetBlTxAlh\":\"d3d3d3d3d3d3d3d3d3d3d3d3d3d3d3d3d3d3d3d3d3d3d3d3d3d3d3d3d3d3d3d3\"},\"t\
    ype\":\"dual\"}";

// Messages and answers end by `drop`: the proof of a function in which one falls out of scope goes through all of
// its parts again.

// Whether a text reads as a message that is written as the same text.
fn is_kept(alloc: Global, text: &str) -> Result<bool, Fail> {
    let message = read_message(alloc, text.as_bytes())?;
    let written = write(alloc, &message);
    drop(message);
    Ok(written?.as_slice() == text.as_bytes())
}

#[test]
fn a_message_of_the_greatest_numbers_is_written_as_it_was_read(
    rt: HostRuntime,
) -> Result<(), Fail> {
    assert!(rt; is_kept(rt.alloc(), DUAL)?);
    Ok(())
}

#[test]
fn a_state_is_kept(rt: HostRuntime) -> Result<(), Fail> {
    let hash = Sum;
    let mut client = FactClient::new(rt.alloc(), &hash);
    let kept_none = client.state().is_none();
    let taken = client.take_line(rt.alloc(), STATE.as_bytes());
    let kept = client.state().map(|header| header.id);
    drop(client);
    drop(taken?);
    assert!(rt; kept_none && kept == Some(7));
    Ok(())
}

// Whether this is told of line n where this is its fault.
fn is_told(alloc: Global, n: u64, fault: LineFault, wanted: &[u8]) -> Result<bool, AllocError> {
    let text = refused_text(alloc, n, &fault)?;
    Ok(text.as_slice() == wanted)
}

// No stream has so many lines, no client keeps the header of transaction 0, and an anchor's ends are compared before
// its order.
#[test]
fn faults_are_told_that_no_line_has(rt: HostRuntime) -> Result<(), Fail> {
    let number = LineFault::StateId {
        want: 0,
        got: u64::MAX,
    };
    let order = LineFault::Anchor {
        fault: DualFault::Order {
            source: 3,
            target: 2,
        },
    };
    let cases: [(u64, LineFault, &[u8]); 2] = [
        (
            u64::MAX,
            number,
            b"refused 18446744073709551615 state-id 0 18446744073709551615\n",
        ),
        (1, order, b"refused 1 anchor-order 3 2\n"),
    ];
    for (n, fault, wanted) in cases {
        assert!(rt; is_told(rt.alloc(), n, fault, wanted)?, "line {n}");
    }
    Ok(())
}
