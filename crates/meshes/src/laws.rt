// What holds of the layers over any mesh.
ghost use Rattle.std.specs.Prelude.{List};
ghost use Rattle.base.specs.declared.ids.HalfEdgeId.{HalfEdgeId as Side};
ghost use Rattle.surfaces.specs.Lawful.{Lawful, Alike};
ghost use Rattle.surfaces.specs.Layers.{mirrored, barred};

use crate::Mesh;

// Mirrored or barred a mesh is sound, and mirrored twice it means the same surface again.
pub fn layers_stand<M: Mesh>()
    ensures mirrored { (m : M) → Lawful (mirrored (M.surface m)) }
    ensures barred { (m : M) (bars : List Side) → Lawful (barred bars (M.surface m)) }
    ensures twice { (m : M) → Alike (mirrored (mirrored (M.surface m))) (M.surface m) }
{}
