//! The values under which a part of a policy is evaluated.

ghost use Rattle.std.specs.Prelude.{◌≡◌, ◌+◌, ◌≤◌, ◌++◌, pos, map, take, drop};
ghost use Rattle.policy_eval.specs.declared.env.CoreValues.{CoreValues};
ghost use Rattle.policy_eval.specs.Sights.{core_values, event_values, move_values, own_values, pair_values};
ghost use Rattle.policy_eval.specs.Sights.{thread_values};

use policy_tree::variables;
use sched_base::{MAX_ATTRIBUTES, MAX_CORES, MAX_LOAD, MAX_VARIABLES, Task};

/// A value for each variable, by the variable's number.
#[derive(Clone, Copy)]
pub struct Env {
    pub vals: [i64; MAX_VARIABLES],
}

/// What a policy may ask of a core.
#[derive(Clone, Copy)]
pub struct CoreValues {
    /// The number of its threads, the current one counted and the blocked ones not.
    pub nr: u32,
    /// The sum of their weights, at most `MAX_LOAD`.
    pub load: u64,
    /// The values of its attributes in the order of their declaration, 0 past the last.
    pub consts: [i32; MAX_ATTRIBUTES],
}

impl CoreValues {
    /// What is known of a core that isn't there.
    pub const NONE: CoreValues = CoreValues {
        nr: 0,
        load: 0,
        consts: NO_ATTRIBUTES,
    };

    /// What is known of all cores before the first is looked at.
    pub const NOTHING_SEEN: [CoreValues; MAX_CORES] = [CoreValues::NONE; MAX_CORES];
}

impl Env {
    /// What filter and choice see: the acting core, and the core that they are asked about.
    pub fn of_pair(own: &CoreValues, victim: &CoreValues) -> Env
        requires own { own.now.load ≤ MAX_LOAD }
        requires victim { victim.now.load ≤ MAX_LOAD }
        ensures { result.vals ≡ pair_values own.now victim.now }
    {
        let numbers = [own.nr, own.load as u32, victim.nr, victim.load as u32, 1, 0];
        assigned(&numbers, &own.consts, &victim.consts, &NO_ATTRIBUTES)
    }

    /// What filter and choice see of the acting core, before they are asked about another.
    pub fn of_own(own: &CoreValues) -> Env
        requires { own.now.load ≤ MAX_LOAD }
        ensures { result.vals ≡ own_values own.now }
    {
        let numbers = [own.nr, own.load as u32, 0, 0, 1, 0];
        assigned(&numbers, &own.consts, &NO_ATTRIBUTES, &NO_ATTRIBUTES)
    }

    /// What filter and choice see where the acting core, of which this tells, is asked about that other core. The
    /// acting core's part stays as it lies, so that many cores may be asked about one after the other.
    pub fn with_victim(&self, victim: &CoreValues) -> Env
        requires { victim.now.load ≤ MAX_LOAD }
        ensures { (own : CoreValues) → self.now.vals ≡ own_values own → result.vals ≡ pair_values own victim.now }
    {
        let mut vals = self.vals;
        vals[variables::OTHER_NR as usize] = i64::from(victim.nr);
        vals[variables::OTHER_LOAD as usize] = i64::from(victim.load as u32);
        fill(
            &mut vals,
            variables::OTHER_ATTRIBUTES as usize,
            &victim.consts,
        );
        Env { vals }
    }

    /// What a batch sees before each further move: the thief, the victim, and the thread that is next.
    pub fn of_move(own: &CoreValues, victim: &CoreValues, task: &Task) -> Env
        requires own { own.now.load ≤ MAX_LOAD }
        requires victim { victim.now.load ≤ MAX_LOAD }
        ensures { result.vals ≡ move_values own.now victim.now task.now.weight task.now.attrs }
    {
        let numbers = [
            own.nr,
            own.load as u32,
            victim.nr,
            victim.load as u32,
            task.weight,
            0,
        ];
        assigned(&numbers, &own.consts, &victim.consts, &task.attrs)
    }

    /// What placement sees of a core.
    pub fn of_core(core: &CoreValues) -> Env
        requires { core.now.load ≤ MAX_LOAD }
        ensures { result.vals ≡ core_values core.now }
    {
        let numbers = [0, 0, core.nr, core.load as u32, 1, 0];
        assigned(&numbers, &NO_ATTRIBUTES, &core.consts, &NO_ATTRIBUTES)
    }

    /// What the orders of threads see of a thread.
    pub fn of_thread(task: &Task) -> Env
        ensures { result.vals ≡ thread_values task.now.weight task.now.attrs }
    {
        let numbers = [0, 0, 0, 0, task.weight, 0];
        assigned(&numbers, &NO_ATTRIBUTES, &NO_ATTRIBUTES, &task.attrs)
    }

    /// What a handler sees: whether the thread enters just now, the core that holds it, and the thread.
    pub fn of_event(fresh: bool, consts: &[i32; MAX_ATTRIBUTES], task: &Task) -> Env
        ensures { result.vals ≡ event_values fresh consts.now task.now.weight task.now.attrs }
    {
        let numbers = [0, 0, 0, 0, task.weight, u32::from(fresh)];
        assigned(&numbers, consts, &NO_ATTRIBUTES, &task.attrs)
    }
}

// The variables before the attributes.
const NUMBERS: usize = variables::SELF_ATTRIBUTES as usize;

const NO_ATTRIBUTES: [i32; MAX_ATTRIBUTES] = [0; MAX_ATTRIBUTES];

/// All variables in the order of their numbers: those before the attributes, then the attributes of
/// the core itself, of the other core and of the thread.
fn assigned(
    numbers: &[u32; NUMBERS],
    own: &[i32; MAX_ATTRIBUTES],
    victims: &[i32; MAX_ATTRIBUTES],
    attrs: &[i32; MAX_ATTRIBUTES],
) -> Env
    ensures { result.vals ≡ map pos numbers.now ++ (own.now ++ victims.now ++ attrs.now) }
{
    let mut vals = [0; MAX_VARIABLES];
    fill(&mut vals, variables::THREAD_ATTRIBUTES as usize, attrs);
    fill(&mut vals, variables::OTHER_ATTRIBUTES as usize, victims);
    fill(&mut vals, NUMBERS, own);
    for at in 0..NUMBERS {
        vals[at] = i64::from(numbers[at]);
    }
    Env { vals }
}

/// Writes the values of the attributes, the first of them to that place.
fn fill(vals: &mut [i64; MAX_VARIABLES], first: usize, attrs: &[i32; MAX_ATTRIBUTES])
    requires { first + MAX_ATTRIBUTES ≤ MAX_VARIABLES }
    ensures { vals.new ≡ take first vals.old ++ (attrs.now ++ drop (first + MAX_ATTRIBUTES) vals.old) }
{
    for at in 0..MAX_ATTRIBUTES {
        vals[first + at] = i64::from(attrs[at]);
    }
}
