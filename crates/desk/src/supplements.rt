// Supplements, read, asked for the law in force, and laid one over another.
ghost use Rattle.std.specs.Prelude.{◌≡◌};
ghost use Rattle.bmap.specs.Supplement.{read_supplement, law_in_force};
ghost use Rattle.bmap.specs.Laying.{lay_supplements};
ghost use Rattle.supplement.specs.Force.{placed, stretch_of};
ghost use Rattle.desk.specs.Numbers.{read_number, written_number, law_place_number};

use crate::parts::{FOURTH, SECOND, read, refused_alone, written};
use bmap::Refusal;
use supplement::LawPlace;

#[unsafe(no_mangle)]
pub extern "C" fn waroth_read_supplement(store: &[u8], text: &[u8], supplement: &mut [u8]) -> u64
    ensures { (result ≡ read_number (read_supplement store.now text.now supplement.old).answer) × (supplement.new ≡ (read_supplement store.now text.now supplement.old).buffer) }
{
    read(supplement::read(store, text, supplement))
}

// Where a law's payload stands: a bit for the supplement, two bytes for the place, one for the size.
fn stands(place: Result<LawPlace, Refusal>) -> u64
    ensures { result ≡ law_place_number (placed place) }
{
    match place {
        Ok(LawPlace::InDomain { at, size }) => at as u64 % 65_536 * SECOND + size as u64 % 256,
        Ok(LawPlace::InSupplement { at, size }) => {
            FOURTH + (at as u64 % 65_536 * SECOND + size as u64 % 256)
        }
        Err(why) => refused_alone(why),
    }
}

// The law in force, by its place: the caller has both stores.
#[unsafe(no_mangle)]
pub extern "C" fn waroth_law(store: &[u8], supplement: &[u8], law: usize) -> u64
    ensures { result ≡ law_place_number (stretch_of (law_in_force store.now supplement.now law)) }
{
    stands(supplement::place_in_force(store, supplement, law))
}

#[unsafe(no_mangle)]
pub extern "C" fn waroth_lay(store: &[u8], lower: &[u8], upper: &[u8], res: &mut [u8]) -> u64
    ensures { (result ≡ written_number (lay_supplements store.now lower.now upper.now res.old).answer) × (res.new ≡ (lay_supplements store.now lower.now upper.now res.old).buffer) }
{
    written(supplement::lay(store, lower, upper, res))
}
