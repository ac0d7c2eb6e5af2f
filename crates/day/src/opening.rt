// The opening of a day.
ghost use Rattle.std.specs.Prelude.{◌≡◌, ◌&&◌};
ghost use Rattle.model.specs.Limits.{is_price};
ghost use Rattle.model.specs.Sound.{is_mark, has_places};
ghost use Rattle.day.specs.Promises.{OpenPromise};

use book::settling::clear_rows;
use figures::fresh_day;
use limits::is_price;
use limits::places::has_places;
use model::{OpenReply, Order};

// Previous close, mark and places are what a day can have.
fn may_open(rows: &[Order], close: u64, mark: u64) -> bool
    ensures { result ≡ (is_price close && is_mark mark && has_places rows.now) }
{
    is_price(close) && mark <= 1 && has_places(rows)
}

// Every place is made free. An opening reads nothing of the old day.
pub fn open_call(rows: &mut [Order], close: u64, mark: u64) -> OpenReply
    ensures { OpenPromise rows.old close mark result rows.new }
{
    if !may_open(rows, close, mark) {
        return OpenReply::Refused(14);
    }
    clear_rows(&mut *rows);
    OpenReply::Opened(fresh_day(close, mark))
}
