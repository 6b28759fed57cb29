//! Writes a net as a file of the second version.
ghost use Rattle.std.specs.Prelude.{◌≡◌, ◌≤◌, ◌<◌, ◌^◌, map, length, IfOk, Some, Ok, All};
ghost use Rattle.toml.specs.Data.{string, no_members};
ghost use Rattle.toml.specs.View.{view, table_view};
ghost use Rattle.teg_net.specs.Limits.{greatest_input_date};
ghost use Rattle.teg_net.specs.Nets.{IsNet, IsPlaceOf, IsInputOf};
ghost use Rattle.teg_reader.specs.Keys.{key_text};
ghost use Rattle.teg_reader.specs.Documents.{tree_of_bytes, document};
ghost use Rattle.teg_reader.specs.Migrated.{number_data, role_text, name_of, transition_entry, place_entry, input_entry, migrated};
ghost use Rattle.teg_reader.specs.Layouts.{IsLaidOut};
ghost use Rattle.teg_reader.specs.Written.{with_member, with_list};

use crate::keys::Key;
use std::alloc::{AllocError, Global};
use teg_net::{InputList, Net, OutOfMemory, Place, Role, Transition, TransitionId};
use toml::{Table, Value};

// A table without keys.
fn new_table(alloc: Global) -> Table
    ensures { table_view result ≡ no_members }
{
    Table::new(alloc)
}

// The table with a value under a key.
fn with_value(alloc: Global, table: Table, key: Key, value: Value) -> Result<Table, AllocError>
    ensures { IfOk result (λ t. table_view t ≡ with_member (key_text key) (view value)
        (table_view table)) }
{
    let mut table = table;
    let key = String::from_str(alloc, key.text())?;
    table.insert(key, value)?;
    Ok(table)
}

// The table with a text under a key.
fn with_text(alloc: Global, table: Table, key: Key, text: &str) -> Result<Table, AllocError>
    ensures { IfOk result (λ t. table_view t ≡ with_member (key_text key) (string text.now)
        (table_view table)) }
{
    let value = Value::string(alloc, text)?;
    with_value(alloc, table, key, value)
}

// A number as a value.
fn number_value(number: u64) -> Value
    requires { number < 2 ^ 63 }
    ensures { view result ≡ number_data number }
{
    Value::Integer(number as i64)
}

// The table with a number under a key.
fn with_number(alloc: Global, table: Table, key: Key, number: u64) -> Result<Table, AllocError>
    requires { number < 2 ^ 63 }
    ensures { IfOk result (λ t. table_view t ≡ with_member (key_text key) (number_data number)
        (table_view table)) }
{
    with_value(alloc, table, key, number_value(number))
}

// The table with a list under a key, where there is anything in it.
fn with_list(alloc: Global, table: Table, key: Key, values: Vec<Value>) -> Result<Table, AllocError>
    ensures { IfOk result (λ t. table_view t ≡ with_list key (map view values.items)
        (table_view table)) }
{
    if values.is_empty() {
        return Ok(table);
    }
    with_value(alloc, table, key, Value::Array(values))
}

// The dates as values.
fn date_values(alloc: Global, dates: &[u64]) -> Result<Vec<Value>, AllocError>
    requires { All (λ d. d ≤ greatest_input_date) dates.now }
    ensures { IfOk result (λ vs. map view vs.items ≡ map number_data dates.now) }
{
    let mut values = Vec::with_capacity(alloc, dates.len())?;
    for date in dates {
        values.push(number_value(*date))?;
    }
    Ok(values)
}

// How a role is written.
fn role_text(role: Role) -> &'static str
    ensures { result.now ≡ role_text role }
{
    match role {
        Role::Internal => "internal",
        Role::Input => "input",
        Role::Output => "output",
    }
}

// The table of a transition.
#[tactic(auto, unfolding(crate::specs::Migrated::transition_entry, crate::specs::Keys::key_text))]
fn transition_value(alloc: Global, transition: &Transition) -> Result<Value, AllocError>
    ensures { IfOk result (λ v. view v ≡ transition_entry transition.now) }
{
    let table = new_table(alloc);
    let table = with_text(alloc, table, Key::Name, transition.name.as_str())?;
    let table = with_text(alloc, table, Key::Role, role_text(transition.role))?;
    Ok(Value::Table(table))
}

// The tables of the transitions in order.
fn transition_values(alloc: Global, transitions: &[Transition]) -> Result<Vec<Value>, AllocError>
    ensures { IfOk result (λ vs. map view vs.items ≡ map transition_entry transitions.now) }
{
    let mut values = Vec::new(alloc);
    for transition in transitions {
        values.push(transition_value(alloc, transition)?)?;
    }
    Ok(values)
}

// The name of the transition of this number.
fn name_of(transitions: &[Transition], id: TransitionId) -> &str
    requires { id.index < length transitions.now }
    ensures { result.now ≡ name_of transitions.now id }
{
    transitions[id.index as usize].name.as_str()
}

// The table of a place.
#[tactic(auto, unfolding(crate::specs::Migrated::place_entry, crate::specs::Keys::key_text))]
fn place_value(alloc: Global, net: &Net, place: &Place) -> Result<Value, AllocError>
    requires { IsPlaceOf net.now place.now }
    ensures { IfOk result (λ v. view v ≡ place_entry net.now.transitions place.now) }
{
    let table = new_table(alloc);
    let transitions = net.transitions();
    let table = with_text(alloc, table, Key::From, name_of(transitions, place.from))?;
    let table = with_number(alloc, table, Key::Hold, place.hold)?;
    let table = with_text(alloc, table, Key::Name, place.name.as_str())?;
    let table = with_text(alloc, table, Key::To, name_of(transitions, place.to))?;
    let table = with_number(alloc, table, Key::Tokens, u64::from(place.tokens))?;
    let ready = date_values(alloc, place.ready.as_slice())?;
    let table = with_list(alloc, table, Key::Ready, ready)?;
    Ok(Value::Table(table))
}

// The tables of the places in order.
fn place_values(alloc: Global, net: &Net) -> Result<Vec<Value>, AllocError>
    ensures { IfOk result (λ vs. map view vs.items ≡ map (place_entry net.now.transitions)
        net.now.places) }
{
    let mut values = Vec::new(alloc);
    for place in net.places() {
        values.push(place_value(alloc, net, place)?)?;
    }
    Ok(values)
}

// The table of an input list.
#[tactic(auto, unfolding(crate::specs::Migrated::input_entry, crate::specs::Keys::key_text))]
fn input_value(alloc: Global, net: &Net, input: &InputList) -> Result<Value, AllocError>
    requires { IsInputOf net.now input.now }
    ensures { IfOk result (λ v. view v ≡ input_entry net.now.transitions input.now) }
{
    let dates = date_values(alloc, input.dates.as_slice())?;
    let table = new_table(alloc);
    let table = with_value(alloc, table, Key::Dates, Value::Array(dates))?;
    let name = name_of(net.transitions(), input.transition);
    let table = with_text(alloc, table, Key::Transition, name)?;
    match input.again {
        Some(again) => {
            let table = with_number(alloc, table, Key::Every, u64::from(again.every))?;
            let table = with_number(alloc, table, Key::Gap, again.gap)?;
            Ok(Value::Table(table))
        }
        None => Ok(Value::Table(table)),
    }
}

// The tables of the input lists in order.
fn input_values(alloc: Global, net: &Net) -> Result<Vec<Value>, AllocError>
    ensures { IfOk result (λ vs. map view vs.items ≡ map (input_entry net.now.transitions)
        net.now.inputs) }
{
    let mut values = Vec::new(alloc);
    for input in net.inputs() {
        values.push(input_value(alloc, net, input)?)?;
    }
    Ok(values)
}

// The table of a net.
fn net_table(alloc: Global, net: &Net) -> Result<Table, AllocError>
    ensures table { IfOk result (λ t. table_view t ≡ migrated net.now) }
    ensures rules { IfOk result (λ _. IsNet net.now) }
{
    let table = new_table(alloc);
    let table = with_number(alloc, table, Key::Version, 2)?;
    let transitions = transition_values(alloc, net.transitions())?;
    let table = with_list(alloc, table, Key::Transition, transitions)?;
    let places = place_values(alloc, net)?;
    let table = with_list(alloc, table, Key::Place, places)?;
    let inputs = input_values(alloc, net)?;
    let table = with_list(alloc, table, Key::Input, inputs)?;
    Ok(table)
}

/// The net as a file of the second version, without durations: each hold is that of the net.
/// [`read_net`](crate::read_net) gives the net again. The bytes may be more than a net file may
/// have, and their layout is that of `toml`. `OutOfMemory` comes only where no memory is found.
pub fn write_net(alloc: Global, net: &Net) -> Result<Vec<u8>, OutOfMemory>
    ensures layout { IfOk result (λ bytes. IsLaidOut net.now bytes.items) }
    ensures read_back { IfOk result (λ bytes. tree_of_bytes bytes.items ≡ Some (migrated net.now)) }
    ensures document { IfOk result (λ bytes. document bytes.items ≡ Ok net.now) }
{
    let table = net_table(alloc, net)?;
    match toml::table_to_string(alloc, &table) {
        Ok(text) => Ok(text.into_bytes()),
        Err(_) => Err(OutOfMemory),
    }
}
