// Sets and indexes of a few elements, as slices.

use bc_params_sets::id_set::IdSet;
use bc_params_sets::tag_index::{Binding, TagIndex};
use std::alloc::{AllocError, Global};

fn binding(object: u32, tag_type: u32, instance: u32) -> Binding {
    Binding {
        object,
        tag_type,
        instance,
    }
}

fn set_of(alloc: Global, ids: &[u32]) -> Result<IdSet, AllocError> {
    let mut set = IdSet::new(alloc);
    for id in ids {
        set.reserve(1)?;
        set.insert(*id);
    }
    Ok(set)
}

#[test]
fn a_set_ascends(rt: HostRuntime) -> Result<(), AllocError> {
    let mut set = set_of(rt.alloc(), &[5, 1, 9, 5, 3])?;
    set.remove(9);
    set.remove(4);
    assert!(rt; set.as_slice() == [1, 3, 5].as_slice());
    assert!(rt; set.contains(3));
    assert!(rt; !set.contains(9));
    Ok(())
}

fn index_of(alloc: Global, bindings: &[Binding]) -> Result<TagIndex, AllocError> {
    let mut index = TagIndex::new(alloc);
    for binding in bindings {
        index.reserve(1)?;
        index.insert(*binding);
    }
    Ok(index)
}

fn filled_index(alloc: Global) -> Result<TagIndex, AllocError> {
    let bindings = [
        binding(7, 1, 4),
        binding(2, 1, 4),
        binding(7, 1, 0),
        binding(7, 2, 3),
        binding(9, 1, 5),
        binding(2, 1, 4),
    ];
    index_of(alloc, &bindings)
}

#[test]
fn an_index_is_read_both_ways(rt: HostRuntime) -> Result<(), AllocError> {
    let mut index = filled_index(rt.alloc())?;
    index.remove(binding(9, 1, 5));
    assert!(rt; index.contains(binding(7, 2, 3)));
    assert!(rt; !index.contains(binding(9, 1, 5)));
    let instances = [binding(7, 1, 0), binding(7, 1, 4)];
    assert!(rt; index.instances_of(7, 1) == instances.as_slice());
    let objects = [binding(2, 1, 4), binding(7, 1, 4)];
    assert!(rt; index.objects_of(1, 4) == objects.as_slice());
    assert!(rt; index.objects_of(1, 5).is_empty());
    Ok(())
}
