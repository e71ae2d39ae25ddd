ghost use Rattle.std.specs.Prelude.{IsErr};
ghost use Rattle.flow_edges.specs.Faults.{Counted};
ghost use Rattle.flow_edges.specs.Flow.{WritesWhole};
ghost use Rattle.taxii_client.specs.declared.reply_refusal.ReplyRefusal.TheVariants.{Status};
ghost use Rattle.command_peer.specs.Refusal.{peer_reason};

use flow_edges::{Sink, write_all_vectored, write_whole};
use flow_values::Fault;
use itoa::Buffer;
use taxii_client::ReplyRefusal;

/// Writes why a response is refused, as `peer refused: Status 404` and a line feed. Allocates
/// nothing.
pub fn write_refusal<S: Sink>(refusal: &ReplyRefusal, reasons: &mut S) -> Result<(), Fault>
    ensures text { WritesWhole (peer_reason refusal.now) (S.written reasons.old)
        (S.written reasons.new) result }
    ensures causes { Counted (IsErr result) (S.faults reasons.old) (S.faults reasons.new) }
{
    match refusal {
        ReplyRefusal::BadHead => write_whole(reasons, b"peer refused: BadHead\n"),
        ReplyRefusal::Status { code } => write_status(*code, reasons),
        ReplyRefusal::Coding => write_whole(reasons, b"peer refused: Coding\n"),
        ReplyRefusal::NoLength => write_whole(reasons, b"peer refused: NoLength\n"),
        ReplyRefusal::TooLarge => write_whole(reasons, b"peer refused: TooLarge\n"),
        ReplyRefusal::NotEnvelope => write_whole(reasons, b"peer refused: NotEnvelope\n"),
    }
}

/// Writes the message for a status code.
fn write_status<S: Sink>(code: u16, reasons: &mut S) -> Result<(), Fault>
    ensures text { WritesWhole (peer_reason (Status code)) (S.written reasons.old)
        (S.written reasons.new) result }
    ensures causes { Counted (IsErr result) (S.faults reasons.old) (S.faults reasons.new) }
{
    let mut buffer = Buffer::new();
    let code = buffer.format(code);
    write_all_vectored(reasons, &[b"peer refused: Status ", code.as_bytes(), b"\n"])
}
