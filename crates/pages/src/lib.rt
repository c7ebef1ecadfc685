// The page request interface.
#![tactic(auto)]

ghost use Rattle.std.specs.Prelude.{◌≡◌};
ghost use Rattle.pages.specs.Pages.{idle, switched_off, switched_on, stopped, is_index, is_waiting, used_credits, is_spent, request_added, closed, with_groups};

use packet::PrgIndex;

#[derive(Clone, Copy, PartialEq, Eq, Debug)]
pub enum Interface {
    Off,
    On,
    Stopped,
}

// A group: how many of its page requests are outstanding, and whether the last one was sent, so
// that it waits for its response.
#[derive(Clone, Copy, PartialEq, Eq, Debug)]
pub struct Group {
    pub waits: bool,
    pub requests: u16,
}

// Each outstanding request uses one credit of the allocation.
#[derive(Clone, Copy, PartialEq, Eq, Debug)]
pub struct Pages {
    pub interface: Interface,
    pub allocation: u16,
    pub groups: [Group; 32],
}

impl Group {
    // A group without requests.
    fn idle() -> Group
        ensures { result ≡ idle }
    {
        Group {
            waits: false,
            requests: 0,
        }
    }
}

impl Pages {
    // The interface switched off.
    pub fn off() -> Pages
        ensures { result ≡ switched_off }
    {
        Pages {
            interface: Interface::Off,
            allocation: 0,
            groups: [Group::idle(); 32],
        }
    }

    // The interface switched on with an allocation of credits.
    pub fn on(allocation: u16) -> Pages
        ensures { result ≡ switched_on allocation }
    {
        Pages {
            interface: Interface::On,
            allocation,
            ..Pages::off()
        }
    }

    // The interface stopped by a Response Failure.
    pub fn stopped() -> Pages
        ensures { result ≡ stopped }
    {
        Pages {
            interface: Interface::Stopped,
            ..Pages::off()
        }
    }

    // Has a group sent its last request and had no response?
    #[tactic(auto, unfolding(crate::specs::Pages::is_waiting))]
    pub fn is_waiting(&self, k: PrgIndex) -> bool
        ensures { result ≡ is_waiting self.now.groups k }
    {
        self.groups.get(k.0 as usize).is_some_and(|g| g.waits)
    }

    // The number of credits in use.
    #[tactic(auto, unfolding(crate::specs::Pages::used_credits))]
    fn used_credits(&self) -> u32
        ensures { result ≡ used_credits self.now.groups }
    {
        self.groups.iter().map(|g| u32::from(g.requests)).sum()
    }

    // Is every credit in use?
    #[tactic(auto, unfolding(crate::specs::Pages::is_spent))]
    pub fn is_spent(&self) -> bool
        ensures { result ≡ is_spent self.now.groups self.now.allocation }
    {
        u32::from(self.allocation) <= self.used_credits()
    }

    // Adds a request to a group.
    #[tactic(auto, unfolding(crate::specs::Pages::request_added))]
    pub fn add_request(&mut self, k: PrgIndex, last: bool)
        ensures { self.new ≡ with_groups self.old (request_added self.old.groups k last) }
    {
        if k.0 < 32 {
            let group = &mut self.groups[k.0 as usize];
            group.waits = last;
            group.requests = group.requests.wrapping_add(1);
        }
    }

    // Closes a group, which frees its credits.
    #[tactic(auto, unfolding(crate::specs::Pages::closed))]
    pub fn close(&mut self, k: PrgIndex)
        ensures { self.new ≡ with_groups self.old (closed self.old.groups k) }
    {
        if k.0 < 32 {
            self.groups[k.0 as usize] = Group::idle();
        }
    }
}

// Is this PRG index below 32?
pub fn is_index(k: PrgIndex) -> bool
    ensures { result ≡ is_index k }
{
    k.0 < 32
}
