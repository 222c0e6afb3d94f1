// The loop over the places of a form: each joins the class of its profile.
ghost use Rattle.std.specs.Prelude.{◌≡◌, [], ◌<◌, length};
ghost use Rattle.base.specs.Put.{padded};
ghost use Rattle.profile.specs.Index.{atom_trees};
ghost use Rattle.bit_partitioner.specs.Places.{PlacesJoined, PlacesRoom, AtomsRoom};
ghost use Rattle.bit_partitioner.specs.Places.{PlacedNext, AllPlaced};

use profile::index;
use profile::index::AtomFacts;

// Places on their way: the class of the place before, and the count of classes.
#[derive(Drop)]
pub struct Places {
    pub class: usize,
    pub count: usize,
}

impl Places {
    // Place p joins its class. Where no atom has an edge it is that of the place before.
    fn join_place(
        self,
        p: u32,
        f: &[u8],
        index: &[AtomFacts],
        edges: u64,
        w: u32,
        profile: &mut [u64],
        out: &mut [u64],
    ) -> Self
        requires { PlacesRoom f.now index.now edges w profile.old out.old
            × PlacesJoined f.now w self p profile.old out.old × (p < w) }
        ensures { PlacedNext f.now w p result profile.new
            out.old out.new }
    {
        if arith::bit(edges, p) == 0 {
            let at = self.class * (profile.len() + 1);
            classes::add_place(at, p, out);
            return self;
        }
        profile::move_profile(f, index, p, w, profile);
        let k = self.count;
        let class = classes::join_class(profile, p, k, out);
        if class == k {
            return Places {
                class,
                count: k + 1,
            };
        }
        Places { class, count: k }
    }
}

// All places of w join their classes; returns how many classes there are.
fn join_places(
    f: &[u8],
    index: &[AtomFacts],
    edges: u64,
    w: u32,
    profile: &mut [u64],
    out: &mut [u64],
) -> usize
    requires { PlacesRoom f.now index.now edges w profile.old out.old
        × (length profile.old ≡ length (atom_trees f.now))
        × (out.old ≡ padded (length out.old) []) }
    ensures { AllPlaced f.now w out.old out.new result }
{
    let mut x = Places { class: 0, count: 0 };
    for p in 0..w {
        x = x.join_place(p, f, index, edges, w, profile, out);
    }
    x.count
}

// The classes of the atoms at the front of f, one or more, written to out, which is all zeros; the
// index and the profile have a place for each. Returns how many there are.
pub fn partition_atoms(
    f: &[u8],
    w: u32,
    index: &mut [AtomFacts],
    profile: &mut [u64],
    out: &mut [u64],
) -> usize
    requires { AtomsRoom f.now w index.old profile.old out.old }
    ensures { AllPlaced f.now w out.old out.new result }
{
    let edges = index::put_index(f, index);
    join_places(f, index, edges, w, profile, out)
}
