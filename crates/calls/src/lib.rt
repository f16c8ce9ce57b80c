// Calls and their bytes: document 01, "Commands".
#![tactic(auto)]

mod kinds_read;
mod kinds_written;
mod reader;
mod writer;

pub use kinds_read::read_call;
pub use kinds_written::write_call;
use pages::{Frame, VirtualPage};
pub use reader::read_at;

// A call: its kind and its operands, in the order of their bytes. Page and frame numbers are the page layer's own types, so that
// the one never stands for the other.
#[derive(Clone, Copy)]
pub enum Call {
    Take {
        party: u8,
        base: u16,
        reg: u8,
    },
    Split {
        party: u8,
        base: u16,
        len: u16,
    },
    Merge {
        party: u8,
        base: u16,
    },
    Give {
        party: u8,
        base: u16,
        to: u8,
    },
    Revoke {
        party: u8,
        base: u16,
    },
    Sweep {
        party: u8,
        n: u16,
    },
    Collect {
        party: u8,
    },
    Map {
        party: u8,
        page: VirtualPage,
        frame: Frame,
    },
    Unmap {
        party: u8,
        page: VirtualPage,
    },
    Zero {
        party: u8,
        frame: Frame,
    },
    Load {
        party: u8,
        a: u8,
        off: u16,
        d: u8,
    },
    Store {
        party: u8,
        a: u8,
        off: u16,
        s: u8,
    },
    Narrow {
        party: u8,
        s: u8,
        off: u16,
        len: u16,
        mask: u8,
        d: u8,
    },
    Number {
        party: u8,
        d: u8,
        value: u64,
    },
    Grant {
        party: u8,
        s: u8,
        to: u8,
    },
    Receive {
        party: u8,
        d: u8,
    },
    TakeMasked {
        party: u8,
        base: u16,
        reg: u8,
        mask: u8,
    },
    Create {
        party: u8,
        parent: u8,
        child: u8,
        limit: u16,
        holder: u8,
    },
    Claim {
        party: u8,
        principal: u8,
        page: VirtualPage,
    },
    Release {
        party: u8,
        principal: u8,
        page: VirtualPage,
    },
    Destroy {
        party: u8,
        principal: u8,
    },
}
