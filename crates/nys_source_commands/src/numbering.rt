//! The number of each message on its link.

ghost use Rattle.std.specs.Prelude.{◌≡◌, ◌<◌, ◌≤◌, OnOk, length};
ghost use Rattle.nys_source_commands.specs.declared.bare_run.TheConstants.{MAX_MESSAGES};
ghost use Rattle.nys_source_commands.specs.Numbers.{AreNumbers, AreSomeNumbers, is_on, link_of, number_on_link};

use nys_bytes::NoMemory;

/// Numbers the messages that have none yet. There are at most `MAX_MESSAGES`.
pub(crate) fn number_messages(
    numbers: &mut Vec<u32>,
    messages: &[(u32, u32)],
) -> Result<(), NoMemory>
    requires few { length messages.now ≤ MAX_MESSAGES }
    requires numbers { AreSomeNumbers numbers.old.items messages.now }
    ensures { OnOk result (AreNumbers numbers.new.items messages.now (length messages.now)) }
{
    for at in numbers.len()..messages.len() {
        let number = next_number(messages, numbers.as_slice(), at);
        numbers.push(number)?;
    }
    Ok(())
}

/// The number of a message that has one.
pub(crate) fn number_at(messages: &[(u32, u32)], numbers: &[u32], k: usize) -> u32
    requires here { k < length messages.now }
    requires few { length messages.now ≤ MAX_MESSAGES }
    requires numbers { AreNumbers numbers.now messages.now (length messages.now) }
    ensures value { result ≡ number_on_link messages.now k (link_of messages.now k) }
    ensures few { result ≤ MAX_MESSAGES }
{
    numbers[k]
}

/// The number of the first message that has none: one more than that of the last before it on its link.
fn next_number(messages: &[(u32, u32)], numbers: &[u32], at: usize) -> u32
    requires here { at < length messages.now }
    requires few { length messages.now ≤ MAX_MESSAGES }
    requires numbers { AreNumbers numbers.now messages.now at }
    ensures { result ≡ number_on_link messages.now at (link_of messages.now at) }
{
    let link = messages[at];
    for back in 0..at {
        let before = at - 1 - back;
        if is_on(link, messages[before]) {
            return numbers[before] + 1;
        }
    }
    0
}

/// Whether a message is one of the link.
fn is_on(link: (u32, u32), message: (u32, u32)) -> bool
    ensures { result ≡ is_on link message }
{
    message.0 == link.0 && message.1 == link.1
}
