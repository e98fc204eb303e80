// Judging a reply (01, "The bench", and "Named refusals", B0 to B6).
ghost use Rattle.std.specs.Prelude.{◌≡◌, true, false, not, List, ℕ, ◌+◌, ◌%◌, ◌≤◌, eqb, length};
ghost use Rattle.meaning.specs.Bytes.{both, either, part};
ghost use Rattle.meaning.specs.State.{board_byte};
ghost use Rattle.meaning.specs.Bench.{address_byte, written, from_asked, right_address, error_reply, content, handed};
ghost use Rattle.meaning.specs.Bench as meaning;
ghost use Rattle.bench.specs.Outcomes.{check_number, verdict_of, without_data, piece_from, piece_by, Ordinary};

use crate::request::is_allowed;
use std::fmt;
use wire::codes::{BROADCAST, ERROR_REPLY};
use wire::{data_part, front, same};

// The refusals by their numbers in 01.
#[derive(Clone, Copy, PartialEq, Eq, Debug)]
pub enum Refusal {
    B0,
    B1,
    B2,
    B3,
    B4,
    B5,
    B6,
}

impl Refusal {
    pub fn number(self) -> u8
        ensures { (result ≡ check_number self) × (result ≤ 6) }
    {
        self as u8
    }
}

impl fmt::Display for Refusal {
    ghost use Rattle.std.specs.Prelude.{Some};
    ghost use Rattle.bench.specs.Words.{refusal_text};

    ghost output = { λ b. Some (refusal_text b) };

    fn fmt<W: fmt::Write>(&self, f: &mut fmt::Formatter<W>) -> fmt::Result {
        let number = self.number();
        write!(f, "B{number}")
    }
}

// An error has its code, as the byte that came: it is told on as a number, and no code is asked for by its name here. With a warning and without are two verdicts, as 01 has them.
#[derive(Clone, Copy, PartialEq, Eq, Debug)]
pub enum Verdict {
    Done,
    DoneWithWarning,
    Error(u8),
    ErrorWithWarning(u8),
}

impl fmt::Display for Verdict {
    ghost use Rattle.std.specs.Prelude.{Some};
    ghost use Rattle.bench.specs.Words.{verdict_text};

    ghost output = { λ v. Some (verdict_text v) };

    #[tactic(auto, using(std::proofs::lemmas::Fmt::hex_byte))]
    fn fmt<W: fmt::Write>(&self, f: &mut fmt::Formatter<W>) -> fmt::Result {
        match *self {
            Verdict::Done => f.write_str("done"),
            Verdict::DoneWithWarning => f.write_str("done with warning"),
            Verdict::Error(code) => write!(f, "error code {code:02X}"),
            Verdict::ErrorWithWarning(code) => write!(f, "error code {code:02X} with warning"),
        }
    }
}

// Where a reply's data part starts, and its length: the two numbers that C is told of it.
#[derive(Clone, Copy, PartialEq, Eq)]
pub struct Piece {
    pub from: usize,
    pub count: usize,
}

impl Piece {
    // 01, "the data part .., and on refusal .. the empty piece at its front", of a reply of so many bytes.
    pub fn of(judged: Result<Verdict, Refusal>, reply: usize) -> Piece
        ensures { piece_from result ≡ piece_by reply judged }
    {
        match judged {
            Err(_) => Piece { from: 0, count: 0 },
            Ok(_) => Piece {
                from: 2,
                count: reply.saturating_sub(3),
            },
        }
    }
}

#[tactic(auto, unfolding(meaning::specs::Bench::address_byte))]
fn is_address(address: u8) -> bool
    ensures { result ≡ address_byte address }
{
    wire::is_board(address) || address == BROADCAST
}

// B0: the request is one that the bench writes.
#[tactic(auto, unfolding(meaning::specs::Bench::written, meaning::specs::Frames::command_byte))]
pub(crate) fn is_written(request: &[u8]) -> bool
    ensures { result ≡ written request.now }
{
    request.len() >= 3
        && wire::xor_of(request) == 0
        && is_address(request[0])
        && is_allowed(request[1], data_part(request))
}

// B3: "address not the asked one; for broadcast, not 40h to 5Fh".
#[tactic(auto, unfolding(meaning::specs::Bench::from_asked))]
fn from_asked(asked: u8, answering: u8) -> bool
    ensures { result ≡ from_asked asked answering }
{
    if asked == BROADCAST {
        return wire::is_board(answering);
    }
    answering == asked
}

// 02, Req 01: a reply to 55h carries the address that was given, where it is one.
fn from_new(given: u8, answering: u8) -> bool
    ensures { result ≡ both (board_byte given) (eqb answering given) }
{
    wire::is_board(given) && answering == given
}

// B3, by the reply's command: of 55h to a request 55h the new address, else the asked one.
#[tactic(auto, unfolding(meaning::specs::Bench::right_address, meaning::specs::Bench::bare, meaning::specs::Frames::command_byte))]
fn address_fits(request: &[u8], reply: &[u8]) -> bool
    requires { (3 ≤ length request.now) × (3 ≤ length reply.now) }
    ensures { result ≡ right_address request.now reply.now }
{
    if request[1] != 0x55 || reply[1] % 128 != 0x55 {
        return from_asked(request[0], reply[0]);
    }
    from_new(request[2], reply[0])
}

// B4: the command without bit 7 is the request's or 50h.
pub(crate) fn command_fits(asked: u8, answering: u8) -> bool
    ensures { result ≡ either (eqb (answering % 128) asked) (eqb (answering % 128) 0x50) }
{
    let low = answering % 128;
    low == asked || low == ERROR_REPLY
}

// 01, "A reply whose command is 50h or D0h is error code, except to a request 50h".
pub(crate) fn is_error(asked: u8, answering: u8) -> bool
    ensures { result ≡ both (eqb (answering % 128) 0x50) (not (eqb asked 0x50)) }
{
    answering % 128 == ERROR_REPLY && asked != ERROR_REPLY
}

// B5 of an error reply.
#[tactic(auto, using(crate::proofs::Laws::error_long, crate::proofs::Laws::error_calm, crate::proofs::Laws::error_warned))]
fn error_verdict(reply: &[u8]) -> Result<Verdict, Refusal>
    requires { 3 ≤ length reply.now }
    ensures { (q : List ℕ) → error_reply q reply.now ≡ true → verdict_of result ≡ without_data (content q reply.now) }
{
    if reply.len() != 4 {
        return Err(Refusal::B5);
    }
    if reply[1] < 128 {
        return Ok(Verdict::Error(reply[2]));
    }
    Ok(Verdict::ErrorWithWarning(reply[2]))
}

// B5 and B6 of any other reply.
fn done_verdict(request: &[u8], reply: &[u8]) -> Result<Verdict, Refusal>
    requires { Ordinary request.now reply.now }
    ensures { verdict_of result ≡ without_data (content request.now reply.now) }
{
    let row = wire::row_of(request[1]).ok_or(Refusal::B5)?;
    let asked = data_part(request);
    let answered = data_part(reply);
    if !wire::length_fits(row.reply, asked, answered.len()) {
        return Err(Refusal::B5);
    }
    if !same(front(answered, row.repeats), front(asked, row.repeats)) {
        return Err(Refusal::B6);
    }
    if reply[1] < 128 {
        return Ok(Verdict::Done);
    }
    Ok(Verdict::DoneWithWarning)
}

// 01, "Checks in order: B0 to B6". Request and reply are two lent slices, by 01's form of the judge, here and in each check.
#[tactic(auto, unfolding(meaning::specs::Bench::judge, meaning::specs::Bench::written, meaning::specs::Bench::bad, meaning::specs::Bench::bare, meaning::specs::Bench::error_reply, meaning::specs::Frames::command_byte))]
pub fn judge(request: &[u8], reply: &[u8]) -> Result<Verdict, Refusal>
    ensures { verdict_of result ≡ without_data (meaning.judge request.now reply.now) }
{
    if !is_written(request) {
        return Err(Refusal::B0);
    }
    if reply.len() < 3 {
        return Err(Refusal::B1);
    }
    if wire::xor_of(reply) != 0 {
        return Err(Refusal::B2);
    }
    if !address_fits(request, reply) {
        return Err(Refusal::B3);
    }
    if !command_fits(request[1], reply[1]) {
        return Err(Refusal::B4);
    }
    if is_error(request[1], reply[1]) {
        return error_verdict(reply);
    }
    done_verdict(request, reply)
}

// 01, "the data part is handed back as a piece of the reply itself, and on refusal as the empty piece at its front".
#[tactic(auto, using(crate::proofs::Verdicts::handed_by, crate::proofs::Verdicts::cut_out))]
pub fn data_of<'a>(request: &[u8], reply: &'a [u8]) -> &'a [u8]
    ensures value { result.now ≡ part reply.now (handed request.now reply.now).from (handed request.now reply.now).count }
    ensures place { result.ref_ptr ≡ (reply.entry.ref_ptr.0, (handed request.now reply.now).from + reply.entry.ref_ptr.1) }
{
    let Piece { from, count } = Piece::of(judge(request, reply), reply.len());
    let end = from + count;
    &reply[from..end]
}
