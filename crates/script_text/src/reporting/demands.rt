//! What the last request of each client has to cover, by client.
ghost use Rattle.std.specs.Prelude.{◌≡◌, ◌==◌, ◌<◌, ℕ, [], vec_len, OnOk, if◌then◌else◌};
ghost use Rattle.std.specs.Option.{option_copied, option_map_or};
ghost use Rattle.script_text.specs.inner.Demands.{demand_in};

use n1ql_value::Memory;
use seq_vector::Vector;

/// The demand of a client's last request, None where it made none.
pub(crate) fn demand_in(demands: &[Option<Vector>], c: u32) -> Option<&Vector>
    ensures { option_map_or (λ demand. demand) (option_copied result) [] ≡ demand_in demands.now c }
{
    match demands.get(c as usize) {
        Some(demand) => demand.as_ref(),
        None => None,
    }
}

/// Puts a demand in place of the client's last one.
pub(crate) fn note(demands: &mut Vec<Option<Vector>>, c: u32, demand: &Vector) -> Result<(), Memory>
    ensures { (d : ℕ) → OnOk result (demand_in demands.new.items d ≡ (if d == c then demand.now else demand_in demands.old.items d)) }
{
    let demand = demand.copy(*demands.allocator())?;
    reach(demands, c as usize)?;
    put(demands, c as usize, demand);
    Ok(())
}

/// Makes places up to this one.
fn reach(demands: &mut Vec<Option<Vector>>, place: usize) -> Result<(), Memory>
    ensures within { OnOk result (place < vec_len demands.new) }
    ensures same { (d : ℕ) → OnOk result (demand_in demands.new.items d ≡ demand_in demands.old.items d) }
{
    'places: while demands.len() <= place {
        demands.push(None)?;
    }
    Ok(())
}

fn put(demands: &mut Vec<Option<Vector>>, place: usize, demand: Vector)
    requires { place < vec_len demands.old }
    ensures { (d : ℕ) → demand_in demands.new.items d ≡ (if d == place then demand else demand_in demands.old.items d) }
{
    demands[place] = Some(demand);
}
