// The listed commands by their number, in the order of their bytes: first a function a kind, of its own numbers from 0 on.
ghost use Rattle.std.specs.Prelude.{◌≡◌, ◌+◌, ◌*◌, ◌/◌, ◌%◌, ◌<◌, get_or};
ghost use Rattle.calls.specs.Commands.{page, frame};
ghost use Rattle.short_histories.specs.Listed.{listed};

use calls::Call;
use pages::{Frame, VirtualPage};

// How many there are.
pub(crate) const COUNT: u8 = 40;

// A base: 0 or 8.
fn base(bit: u8) -> u16
    requires { bit < 2 }
    ensures { result ≡ 8 * bit }
{
    8 * bit as u16
}

// A length or a count: 8 or 16.
fn length(bit: u8) -> u16
    requires { bit < 2 }
    ensures { result ≡ 8 + 8 * bit }
{
    8 + 8 * bit as u16
}

fn take(n: u8) -> Call
    ensures { result ≡ Call.Take (n / 2) (8 * (n % 2)) 0 }
{
    Call::Take {
        party: n / 2,
        base: base(n % 2),
        reg: 0,
    }
}

fn split(n: u8) -> Call
    ensures { result ≡ Call.Split (n / 4) (8 * (n / 2 % 2)) (8 + 8 * (n % 2)) }
{
    Call::Split {
        party: n / 4,
        base: base(n / 2 % 2),
        len: length(n % 2),
    }
}

fn merge(n: u8) -> Call
    ensures { result ≡ Call.Merge (n / 2) (8 * (n % 2)) }
{
    Call::Merge {
        party: n / 2,
        base: base(n % 2),
    }
}

fn give(n: u8) -> Call
    ensures { result ≡ Call.Give (n / 4) (8 * (n / 2 % 2)) (n % 2) }
{
    Call::Give {
        party: n / 4,
        base: base(n / 2 % 2),
        to: n % 2,
    }
}

fn revoke(n: u8) -> Call
    ensures { result ≡ Call.Revoke (n / 2) (8 * (n % 2)) }
{
    Call::Revoke {
        party: n / 2,
        base: base(n % 2),
    }
}

fn sweep(n: u8) -> Call
    ensures { result ≡ Call.Sweep (n / 2) (8 + 8 * (n % 2)) }
{
    Call::Sweep {
        party: n / 2,
        n: length(n % 2),
    }
}

fn map(n: u8) -> Call
    ensures { result ≡ Call.Map n (page 0) (frame 0) }
{
    Call::Map {
        party: n,
        page: VirtualPage(0),
        frame: Frame(0),
    }
}

fn unmap(n: u8) -> Call
    ensures { result ≡ Call.Unmap n (page 0) }
{
    Call::Unmap {
        party: n,
        page: VirtualPage(0),
    }
}

fn zero(n: u8) -> Call
    ensures { result ≡ Call.Zero n (frame 0) }
{
    Call::Zero {
        party: n,
        frame: Frame(0),
    }
}

// The listed command of a number; of a number past the last, collect by party 0.
pub(crate) fn command(k: u8) -> Call
    ensures { result ≡ get_or listed k (Call.Collect 0) }
{
    match k {
        0..4 => take(k),
        4..12 => split(k - 4),
        12..16 => merge(k - 12),
        16..24 => give(k - 16),
        24..28 => revoke(k - 24),
        28..32 => sweep(k - 28),
        32..34 => Call::Collect { party: k - 32 },
        34..36 => map(k - 34),
        36..38 => unmap(k - 36),
        38..COUNT => zero(k - 38),
        _ => Call::Collect { party: 0 },
    }
}
