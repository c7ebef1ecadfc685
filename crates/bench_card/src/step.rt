// A call of a script.
use call_access::Direction;
use card::{AccessArgs, AskArgs, Command, ResetArgs};
use packet::{PageRequest, PrgIndex, Refusal};
use state::{Effect, Function};

// The codes are numbers, since C writes the script: benchmarks/card/script.h has the same order.
// `from` and `load` give the part of the pool that the call uses, `room` how much of the buffer it
// is given.
#[derive(Clone, Copy)]
pub(crate) struct Step {
    code: u8,
    flags: u8,
    number: u16,
    load: usize,
    pub(crate) room: usize,
    address: u64,
    from: usize,
}

impl Step {
    pub(crate) fn new(numbers: [u64; 3]) -> Self {
        let [head, address, from] = numbers;
        Step {
            code: (head % 256) as u8,
            flags: (head / 256 % 256) as u8,
            number: (head / 65536 % 65536) as u16,
            load: (head / 4294967296 % 65536) as usize,
            room: (head / 281474976710656) as usize,
            address,
            from: from as usize,
        }
    }

    pub(crate) fn bytes<'a>(&self, pool: &'a [u8]) -> &'a [u8] {
        pool.get(self.from..)
            .and_then(|rest| rest.get(..self.load))
            .unwrap_or(&[])
    }

    fn reset(&self) -> ResetArgs {
        ResetArgs {
            id: self.number,
            stu: self.flags,
            rcb: (self.address % 256) as u8,
        }
    }

    fn ask(&self) -> AskArgs {
        AskArgs {
            address: self.address,
            units: self.number,
            nowrite: self.flags & 1 != 0,
        }
    }

    fn access(&self, direction: Direction) -> AccessArgs {
        AccessArgs {
            direction,
            address: self.address,
            dwords: self.number,
        }
    }

    fn page_request(&self) -> PageRequest {
        PageRequest {
            page: self.address,
            index: PrgIndex(self.number),
            last: self.flags & 1 != 0,
            write: self.flags & 2 != 0,
            read: self.flags & 4 != 0,
        }
    }

    fn command(&self) -> Command {
        match self.code {
            0 => Command::Reset(self.reset()),
            1 => Command::Enable,
            2 => Command::Disable,
            3 => Command::Ask(self.ask()),
            4 => Command::Access(self.access(Direction::Read)),
            5 => Command::Access(self.access(Direction::Write)),
            6 => Command::Receive,
            7 => Command::Drain,
            8 => Command::PagesOn(self.number),
            9 => Command::PagesOff,
            _ => Command::PageRequest(self.page_request()),
        }
    }
}

pub(crate) fn by_call(
    f: &mut Function,
    step: Step,
    bytes: &[u8],
    out: &mut [u8],
) -> Result<Effect, Refusal> {
    card::call(f, step.command(), bytes, out)
}

// Here the codes are matched again: a match on the `Command` would be `card::call` itself.
pub(crate) fn by_single_call(
    f: &mut Function,
    step: Step,
    bytes: &[u8],
    out: &mut [u8],
) -> Result<Effect, Refusal> {
    match step.code {
        0 => card::reset(f, step.reset()),
        1 => card::enable(f),
        2 => card::disable(f),
        3 => card::ask(f, step.ask(), out),
        4 => card::access(f, step.access(Direction::Read), bytes, out),
        5 => card::access(f, step.access(Direction::Write), bytes, out),
        6 => card::receive(f, bytes),
        7 => card::drain(f, out),
        8 => card::pages_on(f, step.number),
        9 => card::pages_off(f),
        _ => card::page_request(f, step.page_request(), out),
    }
}
