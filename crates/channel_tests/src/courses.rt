//! Courses of calls, each with its answers.
use broadcast_channel::{Channels, Message, NoChannel, OpenFault, PostFault};
use std::alloc::Global;
use std::test::Fail;

// A call with its answer: owner and id first, then what the call takes, then what it answers.
enum Step {
    Open(u32, u32, u32, &'static str, Result<(), OpenFault>),
    Post(u32, u32, &'static str, Result<u32, PostFault>),
    Receive(u32, u32, &'static [&'static str]),
    ReceiveNone(u32, u32),
    Close(u32, u32, Result<(), NoChannel>),
    DropOwner(u32),
}

// Two channels of owner 1 and one of owner 2; then closes, and ids that are used or not there.
const TWO_OWNERS: &[Step] = &[
    Step::Open(1, 1, 7, "c", Ok(())),
    Step::Open(1, 2, 7, "c", Ok(())),
    Step::Open(2, 1, 7, "c", Ok(())),
    Step::Post(1, 1, "x", Ok(2)),
    Step::Receive(2, 1, &["x"]),
    Step::Receive(1, 1, &[]),
    Step::Close(1, 2, Ok(())),
    Step::Post(1, 2, "y", Err(PostFault::Closed)),
    Step::Post(1, 9, "y", Err(PostFault::NoChannel)),
    Step::Open(1, 2, 7, "c", Err(OpenFault::IdUsed)),
    Step::Post(2, 1, "z", Ok(1)),
    Step::Receive(1, 1, &["z"]),
    Step::Receive(1, 2, &[]),
];

// A channel hears the others of its owner and not itself; the least and the greatest id.
const ONE_OWNER: &[Step] = &[
    Step::Open(1, 5, 7, "c", Ok(())),
    Step::Open(1, 4, 7, "c", Ok(())),
    Step::Open(1, 3, 7, "d", Ok(())),
    Step::Open(1, 0, 7, "c", Ok(())),
    Step::Open(1, 4_294_967_295, 7, "c", Ok(())),
    Step::Post(1, 4, "x", Ok(3)),
    Step::Receive(1, 5, &["x"]),
    Step::Receive(1, 4, &[]),
    Step::Receive(1, 3, &[]),
    Step::Receive(1, 0, &["x"]),
    Step::Receive(1, 4_294_967_295, &["x"]),
    Step::Post(1, 0, "\0\n\"", Ok(3)),
    Step::Receive(1, 5, &["\0\n\""]),
];

// What waits in a channel is dropped where it is closed, and its id stays used.
const CLOSED: &[Step] = &[
    Step::Open(1, 1, 7, "c", Ok(())),
    Step::Open(2, 1, 7, "c", Ok(())),
    Step::Open(2, 2, 7, "c", Ok(())),
    Step::Post(1, 1, "x", Ok(2)),
    Step::Close(2, 1, Ok(())),
    Step::Receive(2, 1, &[]),
    Step::Post(1, 1, "y", Ok(1)),
    Step::Receive(2, 1, &[]),
    Step::Receive(2, 2, &["x", "y"]),
    Step::Close(2, 1, Ok(())),
    Step::Post(2, 1, "z", Err(PostFault::Closed)),
    Step::Open(2, 1, 7, "d", Err(OpenFault::IdUsed)),
    Step::Close(2, 7, Err(NoChannel)),
    Step::ReceiveNone(2, 7),
    Step::Close(2, 2, Ok(())),
    Step::Post(1, 1, "z", Ok(0)),
];

// A text comes to its storage key and its name alone; an empty name is a name.
const KEYS: &[Step] = &[
    Step::Open(1, 1, 7, "", Ok(())),
    Step::Open(2, 1, 7, "", Ok(())),
    Step::Open(3, 1, 8, "", Ok(())),
    Step::Open(2, 2, 7, " ", Ok(())),
    Step::Post(1, 1, "", Ok(1)),
    Step::Receive(2, 1, &[""]),
    Step::Receive(2, 2, &[]),
    Step::Receive(3, 1, &[]),
];

// The channels of an owner go with it, and their ids are free again.
const DROPPED: &[Step] = &[
    Step::Open(1, 1, 7, "c", Ok(())),
    Step::Open(2, 1, 7, "c", Ok(())),
    Step::Open(3, 1, 7, "c", Ok(())),
    Step::Open(2, 8, 7, "c", Ok(())),
    Step::Close(2, 8, Ok(())),
    Step::Post(1, 1, "x", Ok(2)),
    Step::DropOwner(2),
    Step::Post(1, 1, "y", Ok(1)),
    Step::ReceiveNone(2, 1),
    Step::Open(2, 1, 7, "c", Ok(())),
    Step::Receive(2, 1, &[]),
    Step::Post(1, 1, "z", Ok(2)),
    Step::Receive(2, 1, &["z"]),
    Step::Receive(3, 1, &["x", "y", "z"]),
    Step::DropOwner(9),
    Step::DropOwner(1),
    Step::DropOwner(2),
    Step::DropOwner(3),
    Step::ReceiveNone(3, 1),
];

// Opens a channel with ample memory.
fn open(
    alloc: Global,
    channels: &mut Channels<u32, u32>,
    owner: u32,
    id: u32,
    key: u32,
    name: &str,
) -> Result<(), OpenFault> {
    match String::from_str(alloc, name) {
        Ok(name) => channels.open(owner, id, key, name),
        Err(_) => Err(OpenFault::NoMemory),
    }
}

// Posts a text with ample memory.
fn post(
    alloc: Global,
    channels: &mut Channels<u32, u32>,
    owner: u32,
    id: u32,
    text: &str,
) -> Result<u32, PostFault> {
    let Ok(text) = String::from_str(alloc, text) else {
        return Err(PostFault::NoMemory);
    };
    match Message::new(alloc, text) {
        Ok(message) => channels.post(owner, id, &message),
        Err(_) => Err(PostFault::NoMemory),
    }
}

// Whether these texts wait in a channel, and none was lost.
fn gives(channels: &mut Channels<u32, u32>, owner: u32, id: u32, want: &[&str]) -> bool {
    match channels.receive(owner, id) {
        Ok((messages, lost)) => are_texts(&messages, want) && lost == 0,
        Err(NoChannel) => false,
    }
}

fn are_texts(messages: &[Message], want: &[&str]) -> bool {
    messages.len() == want.len()
        && messages
            .iter()
            .zip(want)
            .all(|(message, text)| message.text() == *text)
}

// Whether a call answers as it has to.
fn answers(alloc: Global, channels: &mut Channels<u32, u32>, step: &Step) -> bool {
    match step {
        Step::Open(owner, id, key, name, want) => {
            open(alloc, channels, *owner, *id, *key, name) == *want
        }
        Step::Post(owner, id, text, want) => post(alloc, channels, *owner, *id, text) == *want,
        Step::Receive(owner, id, want) => gives(channels, *owner, *id, want),
        Step::ReceiveNone(owner, id) => channels.receive(*owner, *id).is_err(),
        Step::Close(owner, id, want) => channels.close(*owner, *id) == *want,
        Step::DropOwner(owner) => {
            channels.drop_owner(*owner);
            true
        }
    }
}

// Whether each call is answered as it has to be.
fn are_answered(alloc: Global, steps: &[Step]) -> bool {
    let mut channels = Channels::new(alloc);
    for step in steps {
        if !answers(alloc, &mut channels, step) {
            return false;
        }
    }
    true
}

#[test]
fn courses_are_answered(rt: HostRuntime) -> Result<(), Fail> {
    let alloc = rt.alloc();
    assert!(rt; are_answered(alloc, TWO_OWNERS));
    assert!(rt; are_answered(alloc, ONE_OWNER));
    assert!(rt; are_answered(alloc, CLOSED));
    assert!(rt; are_answered(alloc, KEYS));
    assert!(rt; are_answered(alloc, DROPPED));
    Ok(())
}
