// Two images as a policy compares them: each with what may stand in it.
ghost use Rattle.std.specs.Prelude.{◌≡◌};
ghost use Rattle.parts.specs.Handles.{schema_in};
ghost use Rattle.compat.specs.Policies.{ids_by};

use crate::policies::Policy;
use survivors::decls::Declarations;

#[derive(Clone, Copy)]
pub struct Prepared<'a> {
    pub policy: Policy,
    pub old: Declarations<'a>,
    pub new: Declarations<'a>,
    pub ghost old_ids: { old.reached.now ≡ ids_by policy (schema_in old.image) },
    pub ghost new_ids: { new.reached.now ≡ ids_by policy (schema_in new.image) },
}

impl<'a> Prepared<'a> {
    pub fn new(policy: Policy, old: Declarations<'a>, new: Declarations<'a>) -> Prepared<'a>
        requires old_ids { old.reached.now ≡ ids_by policy (schema_in old.image) }
        requires new_ids { new.reached.now ≡ ids_by policy (schema_in new.image) }
        ensures policy { result.policy ≡ policy }
        ensures old { result.old ≡ old.entry }
        ensures new { result.new ≡ new.entry }
    {
        Prepared { policy, old, new }
    }
}
