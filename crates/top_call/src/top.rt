//! The top call: reads all, builds the whole text, and then writes.

ghost use Rattle.std.specs.Prelude.{◌≡◌, ◌+◌, ◌≤◌};
ghost use Rattle.std.specs.Prelude.{None};
ghost use Rattle.top_call.specs.Due.{Answers, Written, asked};

use crate::answer::{Answer, INPUT_LIMIT, answer_to};
use crate::status::Status;
use chare_base::memory::Memory;
use command_words::words::command_of;
use outside_io::edge::{Failed, ReadFault, Sink, Source, read_up_to, write_all};
use std::alloc::Global;

/// Serves a command: reads the source to its end, or until 262,145 bytes have come, and gives the sink the text
/// that is due. Reading makes at most 262,145 takes, and none where the words are no command. The whole text is
/// built before the first byte is given, and giving takes no memory.
pub fn acr_quiet<S: Source, K: Sink>(
    alloc: Global,
    words: &[String],
    source: &mut S,
    sink: &mut K,
) -> Status
    ensures answer { Answers words.now (S.left source.old) (S.left source.new) (S.faults source.old)
        (S.faults source.new) (K.given sink.old) (K.given sink.new) (K.faults sink.old)
        (K.faults sink.new) result }
    ensures takes { S.takes source.new ≤ S.takes source.old + 262145 }
    ensures unread { asked words.now ≡ None → S.takes source.new ≡ S.takes source.old }
{
    let Some(command) = command_of(words) else {
        return written(sink, Status::Usage, b"usage\n");
    };
    let input = match read_up_to(alloc, source, INPUT_LIMIT + 1) {
        Ok(input) => input,
        Err(ReadFault::Memory) => return Status::Memory,
        Err(ReadFault::Failed) => return written(sink, Status::Read, b"read\n"),
    };
    match answer_to(alloc, command, input.as_slice()) {
        Ok(Answer { status, text }) => written(sink, status, text.as_slice()),
        Err(Memory) => Status::Memory,
    }
}

// Gives a text, and answers its status, or that the sink failed.
fn written<K: Sink>(sink: &mut K, status: Status, text: &[u8]) -> Status
    ensures { Written (K.given sink.old) (K.given sink.new) (K.faults sink.old) (K.faults sink.new)
        status text.now result }
{
    match write_all(sink, text) {
        Ok(()) => status,
        Err(Failed) => Status::Write,
    }
}
