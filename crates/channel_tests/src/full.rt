//! A channel in which 1,024 messages wait.
use broadcast_channel::{Channels, MESSAGES, Message};
use std::alloc::Global;
use std::test::Fail;

// Opens channel 1 of two owners under one key and name, with ample memory.
fn two(alloc: Global) -> Channels<u32, u32> {
    let mut channels = Channels::new(alloc);
    for owner in 1..3 {
        if let Ok(name) = String::from_str(alloc, "c") {
            let _ = channels.open(owner, 1, 7, name);
        }
    }
    channels
}

// How many of these posts of a text by owner 1 reach one channel.
fn reach_one(alloc: Global, channels: &mut Channels<u32, u32>, posts: u32) -> u32 {
    let mut count = 0;
    let Ok(text) = String::from_str(alloc, "m") else {
        return count;
    };
    let Ok(message) = Message::new(alloc, text) else {
        return count;
    };
    for _ in 0..posts {
        if channels.post(1, 1, &message) == Ok(1) {
            count = u32::saturating_add(count, 1);
        }
    }
    count
}

// The number of messages that owner 2 receives, and of those that were lost.
fn received(channels: &mut Channels<u32, u32>) -> Option<(usize, u32)> {
    match channels.receive(2, 1) {
        Ok((messages, lost)) => Some((messages.len(), lost)),
        Err(_) => None,
    }
}

#[test]
fn full_channel_loses_and_counts_later_messages(rt: HostRuntime) -> Result<(), Fail> {
    let alloc = rt.alloc();
    let mut channels = two(alloc);
    assert!(rt; reach_one(alloc, &mut channels, 1025) == 1025);
    assert!(rt; received(&mut channels) == Some((MESSAGES, 1)));
    assert!(rt; received(&mut channels) == Some((0, 0)));
    assert!(rt; reach_one(alloc, &mut channels, 30) == 30);
    assert!(rt; received(&mut channels) == Some((30, 0)));
    Ok(())
}
