use call_access::Direction;
use card::{AccessArgs, AskArgs, Command, ResetArgs};
use packet::{PageRequest, PrgIndex};
use test_records::Input;

// A call of a record: its arguments, how many bytes of a buffer it is given, 0 for a call that
// never sends, and the packet that it receives or the payload of an access.
#[derive(Clone, Copy)]
pub(crate) struct Call<'a> {
    pub(crate) command: Command,
    pub(crate) room: u16,
    pub(crate) bytes: &'a [u8],
}

fn take_reset(from: &mut Input) -> Command {
    Command::Reset(ResetArgs {
        id: from.take(),
        stu: from.take(),
        rcb: from.take(),
    })
}

fn take_ask(from: &mut Input) -> Command {
    Command::Ask(AskArgs {
        address: from.take(),
        units: from.take(),
        nowrite: from.take(),
    })
}

fn take_access(direction: Direction, from: &mut Input) -> Command {
    Command::Access(AccessArgs {
        direction,
        address: from.take(),
        dwords: from.take(),
    })
}

fn take_page_request(from: &mut Input) -> Command {
    let page = from.take();
    let index = PrgIndex(from.take());
    let flags = from.byte();
    Command::PageRequest(PageRequest {
        page,
        index,
        last: flags & 4 != 0,
        write: flags & 2 != 0,
        read: flags & 1 != 0,
    })
}

// The call whose code has been read from a record. The codes are those of stored scripts. A code past
// the last one is a page request that is given no room.
pub(crate) fn take_call<'a>(code: u8, mut from: Input<'a>) -> Call<'a> {
    let (room, command): (u16, Command) = match code {
        0 => (0, take_reset(&mut from)),
        1 => (0, Command::Enable),
        2 => (0, Command::Disable),
        3 => (from.take(), take_ask(&mut from)),
        4 => (from.take(), take_access(Direction::Read, &mut from)),
        5 => (from.take(), take_access(Direction::Write, &mut from)),
        6 => (0, Command::Receive),
        7 => (from.take(), Command::Drain),
        8 => (0, Command::PagesOn(from.take())),
        9 => (0, Command::PagesOff),
        10 => (from.take(), take_page_request(&mut from)),
        _ => {
            let _: u16 = from.take();
            (0, take_page_request(&mut from))
        }
    };
    Call {
        command,
        room,
        bytes: from.rest(),
    }
}
