//! Nets of the examples, as files.

/// Two transitions in a loop: a place from a to b with hold 3, and one back with hold 2 and a
/// token.
pub const LOOP: &[u8] = b"transition = [{name = 'a'}, {name = 'b'}]
place = [
  {name = 'ab', from = 'a', to = 'b', hold = 3},
  {name = 'ba', from = 'b', to = 'a', hold = 2, tokens = 1},
]
";

/// Material that is sawn and drilled, one part at a time, and shipped.
pub const SHOP: &[u8] = b"transition = [
  {name = 'material', role = 'input'}, {name = 'saw'}, {name = 'drill'}, {name = 'ship'},
]
place = [
  {name = 'feed', from = 'material', to = 'saw', hold = 2},
  {name = 'saw_free', from = 'saw', to = 'saw', hold = 4, tokens = 1},
  {name = 'to_drill', from = 'saw', to = 'drill', hold = 5},
  {name = 'drill_free', from = 'drill', to = 'drill', hold = 7, tokens = 1},
  {name = 'to_ship', from = 'drill', to = 'ship', hold = 8},
]
";

/// The kanban line of the guide: three machines, with two cards before the second and the third.
pub const KANBAN: &[u8] = b"transition = [{name = 'm1'}, {name = 'm2'}, {name = 'm3'}]
place = [
  {name = 's1', from = 'm1', to = 'm1', hold = 4, tokens = 1},
  {name = 's2', from = 'm2', to = 'm2', hold = 6, tokens = 1},
  {name = 's3', from = 'm3', to = 'm3', hold = 5, tokens = 1},
  {name = 'f12', from = 'm1', to = 'm2', hold = 4},
  {name = 'f23', from = 'm2', to = 'm3', hold = 6},
  {name = 'c21', from = 'm2', to = 'm1', tokens = 2},
  {name = 'c32', from = 'm3', to = 'm2', tokens = 2},
]
";
