// Revoke and collect over lent rows and pages. Of pages nothing is known here but what the page layer promises.
ghost use Rattle.std.specs.Prelude.{ℕ, ◌≡◌, List};
ghost use Rattle.capabilities.specs.Refusals.{code, first};
ghost use Rattle.pages.specs.Numbers.{layer_of};
ghost use Rattle.table.specs.Rows.{range_of};
ghost use Rattle.table.specs.Find.{row_of};
ghost use Rattle.table.specs.Numbers.{table_of};
ghost use Rattle.reservations.specs.Core.{Core};
ghost use Rattle.reservations.specs.Revocation.{revoke_reasons_of, revoke_at, collected};
ghost use Rattle.reservations.specs.Lent.{revoked_rows, revoked_pages, collected_rows, collected_pages, ReadsAs};

use crate::{collected_row, range_of, revoking_row, whole_pages};
use capabilities::Range;
use capabilities::refusal::Refusal;
use pages::lent::{any_mapped, free, release};
use table::find::put_row;
use table::{LentRows, ReservationState};

// Refusals 6, 7, 10, 11 and 13 against a revoke of the row found; it is told whether a revocation runs.
#[tactic(auto, unfolding(capabilities::specs::Refusals::first))]
pub fn check_revoke(
    table: LentRows<'_>,
    pages: &[u16],
    found: Option<usize>,
    runs: bool,
) -> Result<(), Refusal>
    ensures { (v f : ℕ) (frames : List ℕ) → code result ≡ first (revoke_reasons_of (layer_of v f pages.now frames) (table_of table.entry.rows.now table.entry.count) found runs) }
{
    let row = table.row(found);
    if found.is_none() {
        return Err(Refusal::NoReservation);
    }
    if row.state == ReservationState::Revoking {
        return Err(Refusal::ReservationState);
    }
    if !whole_pages(row) {
        return Err(Refusal::PartPage);
    }
    if runs {
        return Err(Refusal::Revocation);
    }
    if any_mapped(pages, range_of(row)) {
        return Err(Refusal::PageState);
    }
    Ok(())
}

// 05: the row found becomes Revoking, and its Unmapped pages Freed. Its range is handed back.
pub fn revoke(rows: &mut [u64], count: usize, pages: &mut [u16], found: Option<usize>) -> Range
    ensures value { result ≡ range_of (row_of (table_of rows.old count) found) }
    ensures rows_after { rows.new ≡ revoked_rows rows.old count found }
    ensures pages_after { pages.new ≡ revoked_pages rows.old count found pages.old }
    ensures reads_as { ReadsAs count rows.old pages.old rows.new pages.new (λ (c : Core). revoke_at c found) }
{
    let table = LentRows { rows, count };
    let row = table.row(found);
    let range = range_of(row);
    free(pages, range);
    put_row(rows, found, revoking_row(row));
    range
}

// 07: the Revoking row becomes Open, and its pages Unmapped.
pub fn collect(rows: &mut [u64], count: usize, pages: &mut [u16])
    ensures rows_after { rows.new ≡ collected_rows rows.old count }
    ensures pages_after { pages.new ≡ collected_pages rows.old count pages.old }
    ensures reads_as { ReadsAs count rows.old pages.old rows.new pages.new collected }
{
    let table = LentRows { rows, count };
    let found = table.revoking();
    let row = table.row(found);
    release(pages, range_of(row));
    put_row(rows, found, collected_row(row));
}
