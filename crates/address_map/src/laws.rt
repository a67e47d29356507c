//! Laws of mappings. Each stands on a function without a body, so that the check proves it.
ghost use Rattle.std.specs.Prelude.{◌≡◌, ◌≤◌, ℕ, true, [], Some, None, List, Contains, if◌then◌else◌};
ghost use Rattle.uid_names.specs.Names.{ObjectName, same_uid};
ghost use Rattle.address_map.specs.declared.mapping.Mapping.{Mapping};
ghost use Rattle.address_map.specs.Mappings.{lies_in, mapping_of, mapping_at, without_mapping};
ghost use Rattle.address_map.specs.Maps.{IsLayout, with_mapping};

/// Mappings stay few and apart, each object's once, whatever is mapped and unmapped.
pub fn changes_keep_the_layout()
    ensures start { IsLayout [] }
    ensures mapped { (u : ObjectName) (count : ℕ) (mappings : List Mapping) → IsLayout mappings → 1 ≤ count →
        IsLayout (with_mapping u count mappings) }
    ensures unmapped { (u : ObjectName) (mappings : List Mapping) → IsLayout mappings → IsLayout (without_mapping u mappings) }
{}

/// The end of a mapping leaves those of the other objects.
pub fn an_end_leaves_the_others()
    ensures { (v : ObjectName) (mappings : List Mapping) (u : ObjectName) →
        mapping_of u (without_mapping v mappings) ≡ (if same_uid u v then None else mapping_of u mappings) }
{}

/// Each address in the segments of a mapping means that mapping.
pub fn mapped_addresses_are_found()
    ensures { (mappings : List Mapping) (m : Mapping) (address : ℕ) → IsLayout mappings → Contains mappings m →
        lies_in address m ≡ true → mapping_at address mappings ≡ Some m }
{}
