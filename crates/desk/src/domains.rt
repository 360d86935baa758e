// Domains, read and written, and the frames of a store.
ghost use Rattle.std.specs.Prelude.{◌≡◌};
ghost use Rattle.bmap.specs.Store.{read_domain, write_domain, domain_in};
ghost use Rattle.line.specs.Frame.{frame_size_at};
ghost use Rattle.desk.specs.Numbers.{read_number, written_number, counts_number, size_number};

use crate::parts::{FOURTH, SECOND, THIRD, read, refused_alone, written};
use bmap::Refusal;
use line::frame_at;

#[unsafe(no_mangle)]
pub extern "C" fn waroth_read_domain(text: &[u8], store: &mut [u8]) -> u64
    ensures { (result ≡ read_number (read_domain text.now store.old).answer) × (store.new ≡ (read_domain text.now store.old).buffer) }
{
    read(domain::read(text, store))
}

#[unsafe(no_mangle)]
pub extern "C" fn waroth_write_domain(store: &[u8], text: &mut [u8]) -> u64
    ensures { (result ≡ written_number (write_domain store.now text.old).answer) × (text.new ≡ (write_domain store.now text.old).buffer) }
{
    written(domain::write(store, text))
}

// How many agents, fluents, entries and laws a store's domain has, a byte each.
#[tactic(auto, using(crate::proofs::CountLaws::counts_found))]
#[unsafe(no_mangle)]
pub extern "C" fn waroth_counts(store: &[u8]) -> u64
    ensures { result ≡ counts_number (domain_in store.now) }
{
    let Some(index) = domain::index_of(store) else {
        return refused_alone(Refusal::NotDomain);
    };
    let n = index.counts;
    n.agents as u64 * FOURTH
        + (n.fluents as u64 * THIRD + (n.entries as u64 * SECOND + n.laws as u64))
}

// The size of the frame at a place of any bytes: kind, count and payload; 0 where none stands, since C is answered by one number.
#[unsafe(no_mangle)]
pub extern "C" fn waroth_frame(store: &[u8], at: usize) -> u64
    ensures { result ≡ size_number (frame_size_at store.now at) }
{
    frame_at(store, at).unwrap_or(0) as u64
}
