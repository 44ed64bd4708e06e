// The calls end start and test simulation (document 01, "Grids"), and ready start (document 02, L6).
#![tactic(auto)]

ghost use Rattle.std.specs.Prelude.{◌≡◌, ◌*◌, length};
ghost use Rattle.lts.specs.System.{termination_preorder};
ghost use Rattle.lts.specs.Ready.{ready_preorder};
ghost use Rattle.lts.specs.Rule.{checked_reply};
ghost use Rattle.encoding.specs.Checked.{ReadableAs};
ghost use Rattle.encoding.specs.Denotation.{lts_of};
ghost use Rattle.rows.specs.Rows.{row_words};
ghost use Rattle.relation.specs.Matrix.{relation_of, matrix_of, Matrix};
ghost use Rattle.starts.specs.Start.{written_start};
ghost use Rattle.simulation.specs.Calls.{write_start_call, EndStart, ReadyStart, WriteStartPromise};
ghost use Rattle.simulation.specs.Calls.{is_inside, simulation_reply, simulation_call, SimulationPromise};

// Writes the ready start of a readable encoding, or its end start.
fn write_loaded(s: &[u8], h: encoding::Header, ready: bool, grid: &mut [u64])
    requires { ReadableAs s.now h × (length grid.old ≡ h.states * row_words h.states) }
    ensures { grid.new ≡ matrix_of h.states (written_start ready (lts_of s.now)) }
{
    let table = transitions::load(s, h);
    starts::write_start(&table, ready, grid);
}

// The same of an encoding: ready start, or end start.
pub fn write_start(s: &[u8], ready: bool, grid: &mut [u64]) -> Result<(), lts::Refusal>
    ensures { write_start_call (written_start ready) s.now grid.old ≡ record { reply = checked_reply result; grid = grid.new } }
{
    let h = reader::read_encoding(s)?;
    if grid.len() != relation::matrix_words(h.states) {
        return Err(lts::Refusal::Buffer);
    }
    write_loaded(s, h, ready, grid);
    Ok(())
}

// End start: writes the termination preorder of an encoding.
pub fn termination_preorder(s: &[u8], grid: &mut [u64]) -> Result<(), lts::Refusal>
    ensures grid_value { write_start_call termination_preorder s.now grid.old ≡ record { reply = checked_reply result; grid = grid.new } }
    ensures write_start_promise { WriteStartPromise EndStart s.now grid.old (checked_reply result) grid.new }
{
    write_start(s, false, grid)
}

// Ready start: writes the ready preorder of an encoding.
pub fn ready_preorder(s: &[u8], grid: &mut [u64]) -> Result<(), lts::Refusal>
    ensures grid_value { write_start_call ready_preorder s.now grid.old ≡ record { reply = checked_reply result; grid = grid.new } }
    ensures write_start_promise { WriteStartPromise ReadyStart s.now grid.old (checked_reply result) grid.new }
{
    write_start(s, true, grid)
}

// Whether the claim is a simulation of a readable encoding, inside the start.
fn is_inside(s: &[u8], h: encoding::Header, start: &[u64], claim: &[u64]) -> bool
    requires { ReadableAs s.now h × Matrix h.states start.now × Matrix h.states claim.now }
    ensures { let n = h.states in
        result ≡ is_inside (lts_of s.now) (relation_of n start.now) (relation_of n claim.now) }
{
    let table = transitions::load(s, h);
    conditions::claim_passes(&table, start, claim)
}

// Test simulation: whether the claim is a simulation and inside the start.
pub fn is_simulation(s: &[u8], start: &[u64], claim: &[u64]) -> Result<bool, lts::Refusal>
    ensures claim_value { simulation_call s.now start.now claim.now ≡ simulation_reply result }
    ensures simulation_promise { SimulationPromise s.now start.now claim.now (simulation_reply result) }
{
    let h = inputs::read_inputs(s, start)?;
    if !relation::is_matrix(claim, h.states) {
        return Err(lts::Refusal::Grid);
    }
    Ok(is_inside(s, h, start, claim))
}
