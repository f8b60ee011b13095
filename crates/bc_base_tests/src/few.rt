// A list of at most four numbers.

use bc_data::ids::Ids;

fn has_four(ids: &Ids) -> bool {
    ids.as_slice() == [7, 0, 7, 2].as_slice() && ids.get(1) == Some(0) && ids.get(4).is_none()
}

#[test]
fn holds_four(rt: HostRuntime) {
    let mut ids = Ids::from_slice(&[7, 0, 7]);
    ids.push(2);
    assert!(rt; has_four(&ids));
    assert!(rt; Ids::none().is_empty());
}
