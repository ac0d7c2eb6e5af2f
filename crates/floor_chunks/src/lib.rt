// The lines of a chunk of ./floor, answered one after the other into the lent output.
#![tactic(auto)]

ghost use Rattle.std.specs.Prelude.{◌≡◌, ◌≤◌, length};
ghost use Rattle.text.specs.Points.{Serves};
ghost use Rattle.desk.specs.Desks.{desk_of};
ghost use Rattle.chunks.specs.SoundDesk.{SoundDesk};
ghost use Rattle.wishes.specs.Wishes.{floor};
ghost use Rattle.floor_chunks.specs.Points.{point_of, past_line};

use desk::{Desk, LONGEST_ANSWER};
use floor_desk::FloorAnswered;
use floor_desk::answering::answer_wish;
use judge::Claim;
use model::{Order, Trade};
use text::reading::line_from;
use wishes::wish_after;

// How far a chunk is answered: the desk, how many claims are noted, the place of the next line, whether that line began before the
// chunk and is too long, the place after the replies that were put, and whether no line is left.
#[derive(Clone, Copy)]
pub struct FloorProgress {
    pub desk: Desk,
    pub noted: usize,
    pub at: usize,
    pub long: bool,
    pub next: usize,
    pub done: bool,
}

// Past a line that is answered.
fn past_line(a: FloorAnswered, place: usize) -> FloorProgress
    ensures { result ≡ past_line a place }
{
    let desk = a.desk;
    FloorProgress {
        desk,
        noted: a.noted,
        at: place,
        long: false,
        next: a.next,
        done: false,
    }
}

// Goes on from a place of the chunk until no line is left, or the output might not hold another answer.
pub fn answer_lines(
    from: FloorProgress,
    rows: &mut [Order],
    trades: &mut [Trade],
    claims: &mut [Claim],
    chunk: &[u8],
    out: &mut [u8],
) -> FloorProgress
    requires rows_len { (length rows.old ≡ 1024) × (length trades.old ≡ 2048) × (length claims.old ≡ 4096) × (262254 ≤ length out.old) × (from.at ≤ length chunk.now) }
    requires noted_bound { (from.noted ≤ 4096) × SoundDesk (desk_of from.desk rows.old) }
    ensures serves { Serves floor chunk.now (point_of from rows.old claims.old) out.old out.new result.next result.done (point_of result rows.new claims.new) }
    ensures noted_bound_2 { result.noted ≤ 4096 }
{
    let room = out.len() - LONGEST_ANSWER;
    let first = from.desk;
    let mut p = FloorProgress {
        desk: first,
        noted: from.noted,
        at: from.at,
        long: from.long,
        next: 0,
        done: false,
    };
    // One command a turn, until the chunk has no whole line left or the output no room.
    while p.next <= room {
        let Some(line) = line_from(chunk, p.at) else {
            p.done = true;
            return p;
        };
        let place = line.end + 1;
        let w = wish_after(&chunk[line.start..line.end], p.long);
        let desk = p.desk;
        let a = answer_wish(
            desk,
            &mut *rows,
            &mut *trades,
            &mut *claims,
            p.noted,
            w,
            &mut *out,
            p.next,
        );
        p = past_line(a, place);
    }
    p
}
