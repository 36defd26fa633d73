//! Classes that define a method themselves.

ghost use Rattle.std.specs.Prelude.{◌≡◌, ◌<◌, length};
ghost use Rattle.program_model.specs.declared.pools.MethodName.{MethodName};
ghost use Rattle.hierarchy.specs.Naming.{IsKey};
ghost use Rattle.hierarchy.specs.Shapes.{IsResolved};
ghost use Rattle.class_criteria.specs.Overriding.{overrides};

use hierarchy::Hierarchy;
use program_model::{MethodAt, Program};

/// Whether a class under another one, but the class of a method, defines such a virtual method itself.
pub fn overrides(
    program: &Program,
    hierarchy: &Hierarchy,
    class: u32,
    key: u32,
    target: MethodAt,
    definer: u32,
) -> bool
    ensures { let p = program.now in IsResolved p hierarchy.now → (q : MethodName) → IsKey p hierarchy.now key q.name q.proto
        → class < length p.classes → definer < length p.classes → result ≡ overrides p q class target definer }
{
    definer != target.class
        && hierarchy.is_under(definer, class)
        && hierarchy.own_virtual(program, definer, key).is_some()
}
