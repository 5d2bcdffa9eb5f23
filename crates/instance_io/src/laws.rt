//! Laws of reading and writing instances. Each is a function that does nothing: its contract is the law.
ghost use Rattle.std.specs.Prelude.{◌≡◌, ◌≢◌, ◌≤◌, ◌<◌, ℕ, List, map, length, All, Ok};
ghost use Rattle.plane.specs.Accepted.{AreAccepted};
ghost use Rattle.text_defs.specs.Instances.{instance_from};
ghost use Rattle.text_defs.specs.Texts.{instance_text};
ghost use Rattle.instance_io.specs.Refusal.{coordinates, cost_item, HasFault, IsRead};
ghost use Rattle.instance_io.specs.declared.instances.Instance.{Instance};
ghost use Rattle.instance_io.specs.declared.instances.InstanceFault.{InstanceFault};

use crate::instances::Instance;

/// The reading of a written instance is that instance and no other, where its name has at most 1,000 bytes, at most
/// 300,000 pairs have a cost other than 1, and these are pairs of its points.
pub fn instance_reads_back(instance: &Instance)
    requires short { length instance.now.name ≤ 1000 }
    requires few { length instance.now.costs ≤ 300000 }
    requires below { All (λ x. x.0.hi < length instance.now.points) instance.now.costs }
    ensures read { IsRead (instance_from (instance_text (map cost_item instance.now.costs) instance.now.name
        (map coordinates instance.now.points))) (Ok instance.now) }
    ensures once { (other : Instance)
        → IsRead (instance_from (instance_text (map cost_item instance.now.costs) instance.now.name
        (map coordinates instance.now.points))) (Ok other)
        → other ≡ instance.now }
{
    let _count = instance.points.len();
    let _name = instance.name.as_str();
    let _costs = instance.costs.list();
}

/// A text gives one instance at most.
pub fn reading_is_one()
    ensures { (text : List ℕ) (one other : Instance) → IsRead (instance_from text) (Ok one)
        → IsRead (instance_from text) (Ok other) → one ≡ other }
{}

/// A text that gives an instance isn't refused.
pub fn read_is_not_refused()
    ensures { (text : List ℕ) (instance : Instance) (fault : InstanceFault) → fault ≢ InstanceFault.NoMemory → AreAccepted instance.points
        → IsRead (instance_from text) (Ok instance) → ¬ HasFault (instance_from text) fault }
{}
