// The passes by name.
ghost use Rattle.std.specs.Prelude.{◌≡◌};
ghost use Rattle.passes.specs.Names.{is_name, IsPassNamed};

use runner::passes::Pass;

// Whether the name is the function's or the short one.
fn is_name(name: &[u8], function: &[u8], short: &[u8]) -> bool
    ensures { result ≡ is_name name.now function.now short.now }
{
    record::same_bytes(name, function) || record::same_bytes(name, short)
}

// The pass of this name.
pub fn pass_named(name: &[u8]) -> Option<Pass>
    ensures { IsPassNamed name.now result }
{
    if is_name(name, b"refine_terms", b"refine") {
        return Some(Pass::Refine);
    }
    if is_name(name, b"recover_structure", b"recover") {
        return Some(Pass::Recover);
    }
    if is_name(name, b"coalesce_terms", b"coalesce") {
        return Some(Pass::Coalesce);
    }
    if is_name(name, b"flatten_complex_atoms", b"flatten") {
        return Some(Pass::Flatten);
    }
    if is_name(name, b"compact_atom_table", b"compact") {
        return Some(Pass::Compact);
    }
    None
}
