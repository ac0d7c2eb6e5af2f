// Chunks read from standard input, and their replies written to standard output. What is read and written is said of streams over memory
// (`Reads`, `Appends`), as nothing can say it of real ones; what lies between is the definitions' step from chunk to chunk.
ghost use Rattle.std.specs.Prelude.{◌≡◌, true, false, ◌≤◌, [], length, take};
ghost use Rattle.std.specs.Io.KnownBytes.{Appends};
ghost use Rattle.printing.specs.Printing.{Wrote};
ghost use Rattle.text.specs.Answers.{chunkwise};
ghost use Rattle.text.specs.Points.{Onward, Through};
ghost use Rattle.desk.specs.Desks.{desk_of};
ghost use Rattle.chunks.specs.SoundDesk.{SoundDesk};
ghost use Rattle.floors.specs.Floor.{no_floor};
ghost use Rattle.wishes.specs.Wishes.{floor};
ghost use Rattle.floor_chunks.specs.Points.{point_of};
ghost use Rattle.floor.specs.Serving.{Steps, Reached, Turned};

use crate::AfterChunk;
use crate::memory::{claim_list, output, places, trade_list};
use desk::Desk;
use floor_chunks::{FloorProgress, answer_lines};
use judge::Claim;
use model::{Order, Trade};
use printing::put_refusal;
use std::io::{Read, Write};
use streams::{Input, Streams, fill, large_buffer, tell, write_or_tell};
use text::Carry;
use text::reading::{carry_over, is_left};

fn stopped(h: AfterChunk) -> AfterChunk
    ensures { result.stops ≡ true }
{
    let mut r = h;
    r.stops = true;
    r
}

// Writes replies out, or says that it cannot.
fn reply<R, W: Write, E: Write>(streams: &mut Streams<R, W, E>, text: &[u8]) -> bool
    ensures written { result ≡ true → Appends (W.contents streams.old.output) (W.contents streams.new.output) text.now }
    ensures input { streams.new.input ≡ streams.old.input }
{
    write_or_tell(streams, text, b"floor: standard output cannot be written\n")
}

// Answers the lines of a chunk, round by round as the output holds them. Not done: the output cannot be written.
fn answer_chunk<R, W: Write, E: Write>(
    from: FloorProgress,
    streams: &mut Streams<R, W, E>,
    rows: &mut [Order],
    trades: &mut [Trade],
    claims: &mut [Claim],
    chunk: &[u8],
    out: &mut [u8],
) -> FloorProgress
    requires rows_len { (length rows.old ≡ 1024) × (length trades.old ≡ 2048) × (length claims.old ≡ 4096) × (262254 ≤ length out.old) × (from.at ≤ length chunk.now) }
    requires noted_bound { (from.noted ≤ 4096) × SoundDesk (desk_of from.desk rows.old) }
    ensures onward { result.done ≡ true → Onward floor chunk.now (point_of from rows.old claims.old) (point_of result rows.new claims.new) × Through floor chunk.now (point_of result rows.new claims.new) }
    ensures noted_bound_2 { result.noted ≤ 4096 }
{
    let mut p = from;
    loop {
        p = answer_lines(p, &mut *rows, &mut *trades, &mut *claims, chunk, &mut *out);
        let n = p.next;
        if !reply(&mut *streams, &out[..n]) {
            p.done = false;
            return p;
        }
        if p.done {
            return p;
        }
    }
}

// Serves the first n bytes of the buffer as a chunk, and keeps its tail at the buffer's front.
fn serve<R, W: Write, E: Write>(
    h: AfterChunk,
    streams: &mut Streams<R, W, E>,
    rows: &mut [Order],
    trades: &mut [Trade],
    claims: &mut [Claim],
    buf: &mut [u8],
    n: usize,
    out: &mut [u8],
) -> AfterChunk
    requires rows_len { (length rows.old ≡ 1024) × (length trades.old ≡ 2048) × (length claims.old ≡ 4096) × (262254 ≤ length out.old) × (n ≤ length buf.old) }
    requires noted_bound { (h.noted ≤ 4096) × SoundDesk (desk_of h.desk rows.old) }
    ensures { result.stops ≡ false → Steps (take n buf.old) h rows.old claims.old rows.new claims.new buf.new result × (result.noted ≤ 4096) }
{
    let desk = h.desk;
    let from = FloorProgress {
        desk,
        noted: h.noted,
        at: 0,
        long: h.long,
        next: 0,
        done: false,
    };
    let p = answer_chunk(from, streams, rows, trades, claims, &buf[..n], out);
    if !p.done {
        return stopped(h);
    }
    let at = p.at;
    let c = carry_over(buf, at, n, p.long);
    let next = p.desk;
    AfterChunk {
        desk: next,
        noted: p.noted,
        kept: c.kept,
        long: c.long,
        stops: false,
    }
}

// What is due at the end of the input: an unended line is refused.
fn put_end(carry: Carry, out: &mut [u8]) -> usize
    requires { 110 ≤ length out.old }
    ensures { Wrote out.old 0 (chunkwise floor carry [] no_floor []) out.new result }
{
    if !is_left(carry) {
        return 0;
    }
    put_refusal(16, out, 0)
}

// The end of the input.
fn finish<R, W: Write, E: Write>(
    h: AfterChunk,
    streams: &mut Streams<R, W, E>,
    out: &mut [u8],
) -> AfterChunk
    requires { 110 ≤ length out.old }
    ensures { result.stops ≡ true }
{
    let carry = Carry {
        kept: h.kept,
        long: h.long,
    };
    let n = put_end(carry, out);
    reply(streams, &out[..n]);
    stopped(h)
}

// Reads once, and answers the lines that end there.
fn turn<R: Read, W: Write, E: Write>(
    h: AfterChunk,
    streams: &mut Streams<R, W, E>,
    rows: &mut [Order],
    trades: &mut [Trade],
    claims: &mut [Claim],
    buf: &mut [u8],
    out: &mut [u8],
) -> AfterChunk
    requires rows_len { (length rows.old ≡ 1024) × (length trades.old ≡ 2048) × (length claims.old ≡ 4096) × (262254 ≤ length out.old) × (80 ≤ length buf.old) }
    requires noted_bound { (h.noted ≤ 4096) × Reached rows.old claims.old buf.old h }
    ensures { result.stops ≡ false → Turned rows.old claims.old buf.old h rows.new claims.new buf.new result × (result.noted ≤ 4096) }
{
    let kept = h.kept;
    let input = fill(&mut streams.input, buf, kept);
    match input {
        Input::Failed => {
            tell(
                &mut streams.errors,
                b"floor: standard input cannot be read\n",
            );
            stopped(h)
        }
        Input::Ended => finish(h, streams, out),
        Input::Bytes(n) => serve(h, streams, rows, trades, claims, buf, n, out),
    }
}

// A proved loop has to end, and nothing says that the input does: the turns are counted up to a number that no run uses up.
pub fn run<R: Read, W: Write, E: Write>(streams: &mut Streams<R, W, E>) {
    let mut rows = places();
    let mut trades = trade_list();
    let mut claims = claim_list();
    let mut buf = large_buffer();
    let mut out = output();
    let mut h = AfterChunk {
        desk: Desk::Closed,
        noted: 0,
        kept: 0,
        long: false,
        stops: false,
    };
    for _ in 0..u64::MAX {
        h = turn(
            h,
            &mut *streams,
            &mut rows,
            &mut trades,
            &mut claims,
            &mut buf,
            &mut out,
        );
        if h.stops {
            return;
        }
    }
}
