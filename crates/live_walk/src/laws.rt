//! Laws of live paths, as functions with nothing to run.
ghost use Rattle.std.specs.Prelude.{◌≡◌, ◌↔◌, ℕ, List, length};
ghost use Rattle.exclusion_sets.specs.declared.excl_set.ExclSet.{ExclSet};
ghost use Rattle.live_walk.specs.Graphs.{Graph, HasEdges, In, Lawful};
ghost use Rattle.live_walk.specs.Numbers.{edge_graph, seen_as, seen_by};
ghost use Rattle.live_walk.specs.Paths.{IsLast, is_followed, last_edges, live_paths};
ghost use Rattle.res_base.specs.declared.coord.Module.{Module};

/// The last edges are those of live paths, where each module with edges is among those that are
/// counted: so it does not matter how many are. Live paths see edges by their ends and exclusions
/// alone.
pub fn path_laws<E>()
    ensures last { (g : Graph Module E ExclSet) (modules : List Module) (e : E) →
        Lawful g → HasEdges g modules → In e (last_edges g modules) ↔ IsLast g e }
    ensures counted { (g : Graph Module E ExclSet) (modules others : List Module) (m : Module) (e : E) →
        Lawful g → HasEdges g modules → HasEdges g others →
        is_followed g (live_paths g (length modules)) m e ≡ is_followed g (live_paths g (length others)) m e }
    ensures seen { (target : E → Module) (excludes : E → ExclSet) (roots : List E) (out : Module → List E)
        (n : ℕ) (m : Module) (e : E) →
        is_followed (seen_as target excludes roots out) (live_paths (seen_as target excludes roots out) n) m
        (seen_by target excludes e) ≡
        is_followed (edge_graph target excludes roots out) (live_paths (edge_graph target excludes roots out) n) m e }
{}
