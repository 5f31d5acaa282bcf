// What no clause says: that a channel opens, and that what one thread says reaches another.
ghost use Rattle.std.specs.Prelude.{◌≡◌, []};

use sn_channel::{Channel, Listener, Speaker};
use std::test::Fail;
use std::thread;
use std::thread::Threads;

/// How often the speaker says a number, and the listener hears one.
const TIMES: u64 = 100_000;

#[test]
fn what_was_said_is_heard(rt: HostRuntime) -> Result<(), Fail> {
    let (channel, mut speaker, mut listener) = Channel::open(rt.alloc())?;
    let opened = listener.hear(&channel);
    speaker.say(&channel, 3);
    speaker.say(&channel, 3);
    let said = listener.hear(&channel);
    listener.meet(&channel, &mut speaker);
    let met = listener.hear(&channel);
    speaker.say(&channel, u64::MAX);
    let most = listener.hear(&channel);
    assert!(rt; [opened, said, met, most] == [0, 3, 3, u64::MAX]);
    Ok(())
}

#[test]
fn a_thread_hears_what_another_says(rt: HostRuntime) -> Result<(), Fail> {
    let (channel, speaker, listener) = Channel::open(rt.alloc())?;
    let (mut speaker, (mut listener, all_said)) = say_and_hear(&rt, &channel, speaker, listener);
    let before = listener.hear(&channel);
    listener.meet(&channel, &mut speaker);
    let after = listener.hear(&channel);
    assert!(rt; all_said);
    assert!(rt; [before, after] == [2 * TIMES, 2 * TIMES]);
    Ok(())
}

/// Two threads, one of which says the even numbers, the least first. The other hears, and answers
/// whether each number that it heard was said and is no less than the one before.
fn say_and_hear<R: Threads + Sync>(
    rt: &R,
    channel: &Channel,
    speaker: Speaker,
    listener: Listener,
) -> (Speaker, (Listener, bool))
    requires speaker { speaker.channel ≡ channel.now }
    requires said { speaker.said ≡ [] }
    requires listener { listener.channel ≡ channel.now }
    ensures speaker { result.0.channel ≡ channel.now }
    ensures listener { result.1.0.channel ≡ channel.now }
{
    thread::join(
        rt,
        move ||
            requires channel { speaker.channel ≡ channel.now }
            requires said { speaker.said ≡ [] }
            ensures { result.channel ≡ channel.entry.now }
        { say_evens(channel, speaker) },
        move ||
            requires { listener.channel ≡ channel.now }
            ensures { result.0.channel ≡ channel.entry.now }
        { hear_evens(channel, listener) },
    )
}

fn say_evens(channel: &Channel, mut speaker: Speaker) -> Speaker
    requires channel { speaker.channel ≡ channel.now }
    requires said { speaker.said ≡ [] }
    ensures { result.channel ≡ channel.now }
{
    let mut n = 0;
    while n < TIMES {
        n += 1;
        speaker.say(channel, 2 * n);
    }
    speaker
}

fn hear_evens(channel: &Channel, mut listener: Listener) -> (Listener, bool)
    requires { listener.channel ≡ channel.now }
    ensures { result.0.channel ≡ channel.now }
{
    let mut all_said = true;
    let mut last = 0;
    for _ in 0..TIMES {
        let n = listener.hear(channel);
        all_said = all_said && n % 2 == 0 && last <= n && n <= 2 * TIMES;
        last = n;
    }
    (listener, all_said)
}
