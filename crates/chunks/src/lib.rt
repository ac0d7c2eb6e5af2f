// The lines of a chunk, answered one after the other into the lent output.
#![tactic(auto)]

ghost use Rattle.std.specs.Prelude.{◌≡◌, ◌≤◌, length};
ghost use Rattle.text.specs.Answers.{rehearsal};
ghost use Rattle.text.specs.Points.{Serves};
ghost use Rattle.desk.specs.Desks.{desk_of};
ghost use Rattle.chunks.specs.SoundDesk.{SoundDesk};
ghost use Rattle.chunks.specs.Points.{point_of, past_line};

use desk::answering::answer_command;
use desk::{Answered, Desk, LONGEST_ANSWER};
use model::{Order, Trade};
use text::reading::next_command;

// How far a chunk is answered: the desk, the place of the next line, whether that line began before the chunk and is too long,
// the place after the replies that were put, and whether no line is left.
#[derive(Clone, Copy)]
pub struct Progress {
    pub desk: Desk,
    pub at: usize,
    pub long: bool,
    pub next: usize,
    pub done: bool,
}

// Past a line that is answered.
fn past_line(a: Answered, place: usize) -> Progress
    ensures { result ≡ past_line a place }
{
    let desk = a.desk;
    Progress {
        desk,
        at: place,
        long: false,
        next: a.next,
        done: false,
    }
}

// Goes on from a place of the chunk until no line is left, or the output might not hold another answer.
pub fn answer_lines(
    from: Progress,
    rows: &mut [Order],
    trades: &mut [Trade],
    chunk: &[u8],
    out: &mut [u8],
) -> Progress
    requires { (length rows.old ≡ 1024) × (length trades.old ≡ 2048) × (262254 ≤ length out.old) × (from.at ≤ length chunk.now) × SoundDesk (desk_of from.desk rows.old) }
    ensures { Serves rehearsal chunk.now (point_of from rows.old) out.old out.new result.next result.done (point_of result rows.new) }
{
    let room = out.len() - LONGEST_ANSWER;
    let start = from.desk;
    let mut p = Progress {
        desk: start,
        at: from.at,
        long: from.long,
        next: 0,
        done: false,
    };
    // One command a turn, until the chunk has no whole line left or the output no room.
    while p.next <= room {
        let Some(next) = next_command(chunk, p.at, p.long) else {
            p.done = true;
            return p;
        };
        let desk = p.desk;
        let a = answer_command(
            desk,
            &mut *rows,
            &mut *trades,
            next.command,
            &mut *out,
            p.next,
        );
        p = past_line(a, next.place);
    }
    p
}
