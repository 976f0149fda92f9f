// The checks that refuse a step: the core's calls make them before they change anything, and a
// shard makes them before it records the step.
ghost use Rattle.std.specs.Prelude.{◌≡◌, ◌<◌, ◌≤◌, ◌^◌, Some, None, IfOk, IfErr, IfSome, IsSome, OnOk, length, true};
ghost use Rattle.wt_keys.specs.declared.fault.Fault.TheVariants as fault;
ghost use Rattle.wt_core.specs.declared.calls.Call.TheVariants.{Seek};
ghost use Rattle.wt_core.specs.Faults.{is_fault_of, is_seek_fault};

use crate::calls::{Call, Foreseen};
use crate::sequential::Core;
use wt_keys::{CacheKey, Fault, Share};
use wt_regions::Weighs;

// From this number on only the landing of an open load is allowed, so that no count can wrap.
const MAX_STEPS: u64 = 1 << 60;

// Refuses a step with `StepsSpent` once `MAX_STEPS` steps are counted.
#[inline(always)]
pub(crate) fn unspent(step: u64) -> Result<(), Fault>
    ensures ok { OnOk result (step < 2 ^ 60) }
    ensures refusal { IfErr result (λ f. (f ≡ fault.StepsSpent) × (2 ^ 60 ≤ step)) }
{
    if step >= MAX_STEPS {
        return Err(Fault::StepsSpent);
    }
    Ok(())
}

// Refuses a weight above the bound with `TooHeavy`.
#[inline(always)]
pub(crate) fn check_weight(weight: u32, bound: u64) -> Result<(), Fault>
    ensures ok { OnOk result (weight ≤ bound) }
    ensures refusal { IfErr result (λ f. (f ≡ fault.TooHeavy weight bound) × (bound < weight)) }
{
    if weight as u64 > bound {
        return Err(Fault::TooHeavy { weight, bound });
    }
    Ok(())
}

impl<K: CacheKey, V: Share + Weighs> Core<K, V> {
    ghost use Rattle.wt_core.specs.Contract.{Allows, AllowsSeeks, Forbids};
    ghost use Rattle.wt_core.specs.Seek.{foreseen_at};
    ghost use Rattle.wt_core.specs.Step.{spent};

    // How many loads are open, if a step is left.
    #[inline(always)]
    fn open_unless_spent(&self) -> Result<usize, Fault>
        ensures allowed { IfOk result (λ rows. (spent self.now ≡ None)
            × (rows ≡ length self.now.flights.rows)) }
        ensures refusal { IfErr result (λ f. (f ≡ fault.StepsSpent) × (spent self.now ≡ Some f)) }
    {
        unspent(self.step)?;
        Ok(self.open_flights())
    }

    /// Returns how many loads are open, or None if the state may refuse a seek: if no step is left, or no
    /// further load may be opened.
    ///
    /// Takes no memory. O(1).
    #[inline(always)]
    pub fn open_unless_full(&self) -> Option<usize>
        ensures rows { IfSome result (λ rows. (rows ≡ length self.now.flights.rows)
            × (rows < self.now.flights.limit)) }
        ensures allowed { IsSome result → AllowsSeeks K.eq K.word V.measure self.now }
    {
        let Ok(open) = self.open_unless_spent() else {
            return None;
        };
        if open >= self.limit as usize {
            return None;
        }
        Some(open)
    }

    /// Returns how many loads are open after a seek that meets `met`, as `foresee` returned it, or
    /// the fault by which the state refuses that seek: `StepsSpent` before `TooManyFlights`.
    ///
    /// Takes no memory. O(1).
    #[inline]
    pub fn open_met(&self, key: K, now: u64, met: &Foreseen) -> Result<usize, Fault>
        requires { met.now ≡ foreseen_at K.eq key now self.now }
        ensures allowed { IfOk result (Allows K.eq K.word V.measure (Seek key now) self.now) }
        ensures refusal { IfErr result (Forbids K.eq K.word V.measure (Seek key now) self.now) }
        ensures faults { IfErr result (λ f. is_seek_fault f ≡ true) }
    {
        // For the prover: shows what holds of the cache, which bounds the open loads.
        let _stats = self.stats();
        let open = self.open_unless_spent()?;
        match met {
            Foreseen::Lead(_) => {
                let limit = self.limit;
                if open >= limit as usize {
                    Err(Fault::TooManyFlights { limit })
                } else {
                    Ok(open + 1)
                }
            }
            Foreseen::HitLead(_) => Ok(open + 1),
            Foreseen::Join(_) => Ok(open),
            Foreseen::Hit => Ok(open),
        }
    }

    /// Returns how many loads are open after the call's step, or the fault by which the state
    /// refuses the call. The call may still fail with `NoMemory`.
    ///
    /// The faults come in the order in which the call has them. Takes no memory. Expected O(1),
    /// unless an attacker chooses the keys (see `Seeded`).
    #[inline(always)]
    pub fn open_after(&self, call: &Call<K, V>) -> Result<usize, Fault>
        ensures allowed { IfOk result (Allows K.eq K.word V.measure call.now self.now) }
        ensures refusal { IfErr result (Forbids K.eq K.word V.measure call.now self.now) }
        ensures faults { IfErr result (λ f. is_fault_of call.now f ≡ true) }
    {
        // For the prover: shows what holds of the cache, which bounds the open loads.
        let _stats = self.stats();
        match call {
            Call::Seek(key, now) => {
                let met = self.foresee(*key, *now);
                self.open_met(*key, *now, &met)
            }
            Call::Land(id, key, _, _) => match self.row_of(*id, *key) {
                Some(_) => Ok(self.open_flights() - 1),
                None => self.open_unless_spent(),
            },
            Call::Put(_, value, _) => {
                check_weight(value.measure().weight, self.bound)?;
                self.open_unless_spent()
            }
            _ => self.open_unless_spent(),
        }
    }
}
