// The bench: requests written, the length of a reply, replies judged, and the data part of a reply (01, "The bench").
ghost use Rattle.std.specs.Prelude.{◌≡◌};
ghost use Rattle.meaning.specs.Bench as meaning;
ghost use Rattle.bench.specs.Lengths.{expected_length};
ghost use Rattle.quicksetter.specs.Verdicts.{written_number, verdict_number, verdict_code, expected_number, piece_number, Writes};

use crate::given::REFUSED;
use bench::{Piece, Refusal, Unwritten, Verdict};

fn written_number(written: Result<usize, Unwritten>) -> usize
    ensures { result ≡ written_number written }
{
    match written {
        Ok(len) => len,
        Err(Unwritten::R4) => REFUSED + 4,
        Err(Unwritten::R5) => REFUSED + 5,
    }
}

// A written request's length, or R4, R5.
#[unsafe(no_mangle)]
pub extern "C" fn qs_request(address: u32, command: u8, body: &[u8], buffer: &mut [u8]) -> usize
    ensures { Writes (meaning.writes address command body.now buffer.old) result buffer.new }
{
    written_number(bench::write_request(address, command, body, buffer))
}

fn verdict_code(judged: Result<Verdict, Refusal>) -> u32
    ensures { result ≡ verdict_code judged }
{
    match judged {
        Ok(Verdict::Done) => 0,
        Ok(Verdict::DoneWithWarning) => 1,
        Ok(Verdict::Error(code)) => 256 + u32::from(code),
        Ok(Verdict::ErrorWithWarning(code)) => 512 + u32::from(code),
        Err(refusal) => 1024 + u32::from(refusal.number()),
    }
}

#[unsafe(no_mangle)]
pub extern "C" fn qs_judge(request: &[u8], reply: &[u8]) -> u32
    ensures { result ≡ verdict_number (meaning.judge request.now reply.now) }
{
    verdict_code(bench::judge(request, reply))
}

// 01, "the data part is handed back as a piece of the reply itself, and on refusal as the empty piece at its front": its place in the high 32 bits, its length in the low.
#[unsafe(no_mangle)]
pub extern "C" fn qs_data_part(request: &[u8], reply: &[u8]) -> u64
    ensures { result ≡ piece_number (meaning.handed request.now reply.now) }
{
    let piece = Piece::of(bench::judge(request, reply), reply.len());
    piece.from as u64 * 0x100000000 + piece.count as u64
}

fn expected_number(expected: Result<Option<usize>, Refusal>) -> u64
    ensures { result ≡ expected_number expected }
{
    match expected {
        Ok(None) => 0,
        Ok(Some(n)) => n as u64,
        Err(refusal) => 1024 + u64::from(refusal.number()),
    }
}

// How long the reply will be that begins so, 0 while that is not known, or B0, B4, B5.
#[unsafe(no_mangle)]
pub extern "C" fn qs_reply_length(request: &[u8], reply: &[u8]) -> u64
    ensures { result ≡ expected_number (expected_length request.now reply.now) }
{
    expected_number(bench::reply_length(request, reply))
}
