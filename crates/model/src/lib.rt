// The words of the day: what stands at a place of a book, an order as it comes in, a trade, the public screen, the day's own
// figures, the rows of the clock, and the answers of the calls. What they mean is defined in specs/.
#![tactic(auto)]

// The bounds of document 01: places of a book, fen of a price, shares of an order, numbers of a day, and its last second.
pub const MOST_PLACES: usize = 4_096;

pub const HIGHEST_PRICE: u64 = 999_999;

pub const MOST_SHARES: u64 = 1_000_000;

pub const LAST_NUMBER: u64 = 999_999;

pub const LAST_SECOND: u64 = 86_399;

// Blocks are confirmed from 15:00 on, fixed-price orders match from 15:05 on, and at 15:30 what is left of both lapses.
pub const CONFIRMING_FROM: u64 = 54_000;

pub const MATCHING_FROM: u64 = 54_300;

pub const DAY_END: u64 = 55_800;

// The phase in which orders trade on entry, and the phase of a halt.
pub const CONTINUOUS: u64 = 4;

pub const HALTED: u64 = 7;

// One place of the book. A free place is all zeros.
#[derive(Clone, Copy, PartialEq, Eq)]
pub struct Order {
    pub side: u64,
    pub account: u64,
    pub left: u64,
    pub price: u64,
    pub number: u64,
}

// An order as it is asked for. Side 0 buys, 1 sells; for kinds 1 to 4 the price is the protection limit. The balance is what
// the account has to sell: it is tested with the quantity, and kept nowhere.
#[derive(Clone, Copy)]
pub struct Asked {
    pub side: u64,
    pub kind: u64,
    pub account: u64,
    pub quantity: u64,
    pub price: u64,
    pub balance: u64,
}

// A fixed-price order as it is asked for: its price is a limit, and it trades at the day's close or not at all.
#[derive(Clone, Copy)]
pub struct AskedFixed {
    pub side: u64,
    pub account: u64,
    pub quantity: u64,
    pub price: u64,
    pub balance: u64,
}

// A held declaration of a block trade: counter is the account that it names. A free place is all zeros.
#[derive(Clone, Copy)]
pub struct Declaration {
    pub side: u64,
    pub account: u64,
    pub counter: u64,
    pub quantity: u64,
    pub price: u64,
    pub agreement: u64,
    pub number: u64,
}

// A declaration as it is asked for.
#[derive(Clone, Copy)]
pub struct AskedBlock {
    pub side: u64,
    pub account: u64,
    pub counter: u64,
    pub quantity: u64,
    pub price: u64,
    pub agreement: u64,
}

// A trade. Buyer and seller are order numbers, of a block declaration numbers; what is left of their orders is counted right after it.
#[derive(Clone, Copy)]
pub struct Trade {
    pub price: u64,
    pub quantity: u64,
    pub buyer: u64,
    pub seller: u64,
    pub buyerleft: u64,
    pub sellerleft: u64,
}

// An order on its way through the other side: whose number its trades bear, and the price that it goes up or down to.
#[derive(Clone, Copy)]
pub struct Taker {
    pub side: u64,
    pub number: u64,
    pub limit: u64,
}

// A price of a side and the total shares that stand there, zeros where there is none.
#[derive(Clone, Copy, PartialEq, Eq)]
pub struct Level {
    pub price: u64,
    pub shares: u64,
}

// The five best prices of a side.
#[derive(Clone, Copy, PartialEq, Eq)]
pub struct Levels {
    pub first: Level,
    pub second: Level,
    pub third: Level,
    pub fourth: Level,
    pub fifth: Level,
}

// The public screen. Price, volume and surplus are those of the auction that a call would end with, zeros outside the calls and
// where no price stands. High and low stand here alone.
#[derive(Clone, Copy)]
pub struct Screen {
    pub last: u64,
    pub high: u64,
    pub low: u64,
    pub shares: u64,
    pub turnover: u64,
    pub buys: Levels,
    pub sells: Levels,
    pub price: u64,
    pub volume: u64,
    pub surplus: i64,
}

// The figures of the fixed-price book: numbers issued, shares and money traded.
#[derive(Clone, Copy)]
pub struct Fixed {
    pub issued: u64,
    pub shares: u64,
    pub money: u64,
}

// The figures of block trades: declaration numbers issued, and shares confirmed.
#[derive(Clone, Copy)]
pub struct Blocks {
    pub issued: u64,
    pub shares: u64,
}

// The day's own figures, and its screen. First and last are the prices of the first and the last trade, 0 while nothing has
// traded. Halt is the end of the halt that runs, 0 when none does; used30 and used60 are 1 once that threshold is used.
#[derive(Clone, Copy)]
pub struct Day {
    pub close: u64,
    pub limited: u64,
    pub time: u64,
    pub issued: u64,
    pub shares: u64,
    pub turnover: u64,
    pub first: u64,
    pub last: u64,
    pub screen: Screen,
    pub halt: u64,
    pub used30: u64,
    pub used60: u64,
    pub fixed: Fixed,
    pub blocks: Blocks,
}

// A row of the clock: it holds from its first second up to the next row.
#[derive(Clone, Copy)]
pub struct Row {
    pub start: u64,
    pub phase: u64,
    pub orders: bool,
    pub cancels: bool,
}

// How what did not trade of an accepted order ended, and how many shares that was.
#[derive(Clone, Copy)]
pub enum Remainder {
    Nothing,
    Rests(u64),
    Withdrawn(u64),
}

// The accepted case of an order's reply: levels is how many different prices its trades had.
#[derive(Clone, Copy)]
pub struct Entry {
    pub number: u64,
    pub filled: u64,
    pub levels: u64,
    pub remainder: Remainder,
}

#[derive(Clone, Copy)]
pub enum OpenReply {
    Refused(u64),
    Opened(Day),
}

#[derive(Clone, Copy)]
pub enum OrderReply {
    Refused(u64),
    Accepted(Entry),
}

// A declaration is held, or confirmed at once; both tell its number.
#[derive(Clone, Copy)]
pub enum BlockReply {
    Refused(u64),
    Held(u64),
    Confirmed(u64),
}

#[derive(Clone, Copy)]
pub enum CancelReply {
    Refused(u64),
    Withdrawn(u64),
}

#[derive(Clone, Copy)]
pub enum ClockReply {
    Refused(u64),
    Moved { phase: u64, trades: usize },
}

// The accepted case of a move of the clock over all lists, in time order: the phase of the new time, how many trades the main book's
// auctions had, how many blocks were confirmed, how many fixed-price trades there were, and the fixed-price shares that dropped out
// as void and that lapsed.
#[derive(Clone, Copy)]
pub struct Move {
    pub phase: u64,
    pub trades: usize,
    pub confirmed: usize,
    pub fixed: usize,
    pub void: u64,
    pub lapsed: u64,
}

#[derive(Clone, Copy)]
pub enum MoveReply {
    Refused(u64),
    Moved(Move),
}

#[derive(Clone, Copy)]
pub enum ReportReply {
    Refused(u64),
    Priced {
        price: u64,
        volume: u64,
        surplus: i64,
    },
}

#[derive(Clone, Copy)]
pub enum ListReply {
    Refused(u64),
    Listed { count: usize, next: u64 },
}

// What a call hands back beside the lent lists: its reply, the day as it is now, and, where it may trade, how many trades it
// wrote at the front of the trade list.
#[derive(Clone, Copy)]
pub struct OrderAnswer {
    pub reply: OrderReply,
    pub made: usize,
    pub day: Day,
}

#[derive(Clone, Copy)]
pub struct BlockAnswer {
    pub reply: BlockReply,
    pub made: usize,
    pub day: Day,
}

#[derive(Clone, Copy)]
pub struct ClockAnswer {
    pub reply: ClockReply,
    pub made: usize,
    pub day: Day,
}

#[derive(Clone, Copy)]
pub struct MoveAnswer {
    pub reply: MoveReply,
    pub made: usize,
    pub day: Day,
}

// A cancel trades nothing, but its screen changes.
#[derive(Clone, Copy)]
pub struct CancelAnswer {
    pub reply: CancelReply,
    pub day: Day,
}

// What happens on a day. An opening starts it, or starts over.
#[derive(Clone, Copy)]
pub enum Event {
    Open { close: u64, mark: u64 },
    Clock(u64),
    Order(Asked),
    Cancel { account: u64, number: u64 },
}

// What a line of the rehearsal program asks for.
#[derive(Clone, Copy)]
pub enum Command {
    Malformed,
    Asks(Event),
}
