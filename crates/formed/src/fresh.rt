// A start in place: a fresh state written over lent arrays.
ghost use Rattle.std.specs.Prelude.{◌≡◌, true, false};
ghost use Rattle.std.specs.Result.{MatchResult};
ghost use Rattle.capabilities.specs.declared.refusal.Refusal.TheVariants.{State};
ghost use Rattle.pages.specs.Layer.{in_range};
ghost use Rattle.capabilities.specs.Refusals.{code};
ghost use Rattle.arrays.specs.Lent.{held, SameLists, MemoryKept};
ghost use Rattle.formed.specs.Fresh.{zeros, opened, starting, start_in};
ghost use Rattle.formed.specs.Test.{sized};

use arrays::{Machine, Numbers};
use capabilities::refusal::Refusal;
use capabilities::slices::put;
use pages::layer::in_range;
use pages::lent::clear_pages;

// Whether the lists have the lengths of the machine.
fn sized(machine: &Machine<'_>) -> bool
    ensures { result ≡ sized (held machine.now) }
{
    let slots = ((machine.words.len() == 64) & (machine.marks.len() == 64))
        & ((machine.mail.len() == 8) & (machine.flags.len() == 8));
    let entries = (machine.rows.len() == 64)
        & ((machine.pages.len() == 256) & (machine.frames.len() == 128));
    let claims = (machine.principals.len() == 32) & (machine.counts.len() == 8192);
    slots & (entries & claims)
}

// V and F as the state holds them.
fn ranged(v: u64, f: u64) -> Result<(u16, u16), Refusal>
    ensures { MatchResult result (λ x. (in_range v f ≡ true) × (x.0 ≡ v) × (x.1 ≡ f)) (λ e. (in_range v f ≡ false) × (e ≡ State)) }
{
    let (Ok(v), Ok(f)) = (u16::try_from(v), u16::try_from(f)) else {
        return Err(Refusal::State);
    };
    if in_range(v, f) {
        Ok((v, f))
    } else {
        Err(Refusal::State)
    }
}

// Every number of the arrays is 0.
fn clear(machine: &mut Machine<'_>)
    ensures lists { SameLists machine.new machine.old }
    ensures memory { MemoryKept machine.new machine.old }
    ensures arrays { held machine.new ≡ zeros (held machine.old) }
{
    machine.words.fill(0);
    machine.marks.fill(0);
    machine.mail.fill(0);
    machine.flags.fill(0);
    machine.rows.fill(0);
    clear_pages(machine.pages);
    machine.frames.fill(0);
    machine.principals.fill(0);
    machine.counts.fill(0);
}

// A fresh state for V and F over arrays of zeros: its small numbers, its one row and its one principal.
pub fn open(machine: &mut Machine<'_>, v: u16, f: u16)
    ensures lists { SameLists machine.new machine.old }
    ensures memory { MemoryKept machine.new machine.old }
    ensures opened { held machine.new ≡ opened v f (held machine.old) }
{
    machine.nums = Numbers {
        v,
        f,
        count: 1,
        place: 0,
        base: 0,
        length: 0,
    };
    put(machine.rows, 0, 1048576 * (v as u64) + 2533274790395904);
    put(machine.principals, 0, 4294975488);
}

// A fresh state for V and F over any arrays. Refused for V or F out of range, it leaves the all-zero state; refused for the length of
// an array, it leaves every number as it was.
pub fn start_in(machine: &mut Machine<'_>, v: u64, f: u64) -> Result<(), Refusal>
    ensures lists { SameLists machine.new machine.old }
    ensures memory { MemoryKept machine.new machine.old }
    ensures start { starting (code result) (held machine.new) ≡ start_in v f (held machine.old) }
{
    if !sized(machine) {
        return Err(Refusal::State);
    }
    clear(machine);
    machine.nums = Numbers::default();
    let (v, f) = ranged(v, f)?;
    open(machine, v, f);
    Ok(())
}
