//! What `explore` tells.

ghost use Rattle.std.specs.{Prelude.{◌≡◌, ◌++◌, ◌∷◌, [], IfOk, OnOk, map, not, option_map, slice_get}, List.{list_any}};
ghost use Rattle.cml_json.specs.Json as json;
ghost use Rattle.cml_json.specs.Explored as spec;

use crate::named::push_optional_named;
use crate::run::push_run;
use crate::text::{
    array, json_string, push_comma, push_null, push_number, push_optional_number, push_string,
    push_truth,
};
use cml_explore::{BreakTold, ClassTold, Order, Orders, RunsTold, Stopped, Until};
use cml_judge::Spot;
use cml_properties::Property;
use cml_text::Sexpr;
use std::alloc::{AllocError, Global};

// What decided in a run what happened next.
#[tactic(auto, unfolding(crate::specs::Explored::order_name))]
fn order_name(order: Order) -> &'static str
    ensures { result.now ≡ spec.order_name order }
{
    match order {
        Order::Queue => "picks",
        Order::Lot => "turns",
        Order::Priority(_) => "priority",
    }
}

// The depth of its priorities.
#[tactic(auto, unfolding(crate::specs::Explored::order_depth))]
fn order_depth(order: Order) -> Option<u64>
    ensures { result ≡ spec.order_depth order }
{
    match order {
        Order::Priority(depth) => Some(u64::from(depth)),
        Order::Queue => None,
        Order::Lot => None,
    }
}

// What decided in all runs what happened next.
#[tactic(auto, unfolding(crate::specs::Explored::orders_name))]
fn orders_name(orders: Orders) -> &'static str
    ensures { result.now ≡ spec.orders_name orders }
{
    match orders {
        Orders::Named(order) => order_name(order),
        Orders::Round => "round",
    }
}

// The depth of their priorities.
#[tactic(auto, unfolding(crate::specs::Explored::orders_depth))]
fn orders_depth(orders: Orders) -> Option<u64>
    ensures { result ≡ spec.orders_depth orders }
{
    match orders {
        Orders::Named(order) => order_depth(order),
        Orders::Round => None,
    }
}

// At which runs it was to stop.
#[tactic(auto, unfolding(crate::specs::Explored::until_name))]
fn until_name(kind: Until) -> &'static str
    ensures { result.now ≡ spec.until_name kind }
{
    match kind {
        Until::Waits => "waits",
        Until::Deadlock => "deadlock",
        Until::Fault => "fault",
        Until::Budget => "budget",
        Until::Bad => "bad",
    }
}

// Appends the text of a kind of run.
#[tactic(auto, unfolding(crate::specs::Explored::until_json))]
fn push_kind(alloc: Global, texts: &mut Vec<Vec<u8>>, kind: Until) -> Result<(), AllocError>
    ensures { OnOk result (map (λ one. one.items) texts.new.items ≡ map (λ one. one.items) texts.old.items ++ spec.until_json kind ∷ []) }
{
    let text = json_string(alloc, until_name(kind).as_bytes())?;
    texts.push(text)?;
    Ok(())
}

// The texts of kinds of runs.
fn kind_texts(alloc: Global, kinds: &[Until]) -> Result<Vec<Vec<u8>>, AllocError>
    ensures { IfOk result (λ texts. map (λ one. one.items) texts.items ≡ map spec.until_json kinds.now) }
{
    let mut texts = Vec::new(alloc);
    for kind in kinds {
        push_kind(alloc, &mut texts, *kind)?;
    }
    Ok(texts)
}

// The list of kinds of runs.
fn kinds_text(alloc: Global, kinds: &[Until]) -> Result<Vec<u8>, AllocError>
    ensures { IfOk result (λ text. text.items ≡ json.array (map spec.until_json kinds.now)) }
{
    let texts = kind_texts(alloc, kinds)?;
    array(alloc, texts.as_slice())
}

// Appends these bytes, and the word of the property of this number, or `null`.
#[tactic(auto, unfolding(crate::specs::Explored::word_json, crate::specs::Json::optional))]
fn push_word(
    text: &mut Vec<u8>,
    before: &[u8],
    properties: &[Property],
    number: usize,
) -> Result<(), AllocError>
    ensures { OnOk result (text.new.items ≡ text.old.items ++ (before.now ++ json.optional spec.word_json (slice_get properties.now number))) }
{
    match properties.get(number) {
        Some(property) => push_string(text, before, property.kind().word().as_bytes()),
        None => push_null(text, before),
    }
}

// How many lines come before the one at which a property breaks, if one was printed there.
#[tactic(auto, unfolding(crate::specs::Explored::lines_before))]
fn lines_before(lines: usize, spot: Option<Spot>) -> Option<u64>
    ensures { result ≡ spec.lines_before lines spot }
{
    match spot {
        Some(_) => Some(lines as u64),
        None => None,
    }
}

// By which item it was printed.
fn item_of(spot: Option<Spot>) -> Option<u64>
    ensures { result ≡ option_map (λ spot. spot.item) spot }
{
    match spot {
        Some(spot) => Some(spot.item as u64),
        None => None,
    }
}

// Appends a property that is broken.
#[tactic(auto, unfolding(crate::specs::Explored::break_json))]
fn push_break(
    alloc: Global,
    text: &mut Vec<u8>,
    forms: &[Sexpr],
    properties: &[Property],
    told: &BreakTold,
) -> Result<(), AllocError>
    ensures { OnOk result (text.new.items ≡ text.old.items ++ spec.break_json forms.now properties.now told.now) }
{
    let one = told.one;
    push_number(alloc, text, b"{\"property\":", one.property as u64)?;
    push_word(text, b",\"word\":", properties, one.property)?;
    let lines = lines_before(one.line, one.spot);
    push_optional_number(alloc, text, b",\"lines_before\":", lines)?;
    push_optional_number(alloc, text, b",\"item\":", item_of(one.spot))?;
    push_optional_named(alloc, text, b",\"thread\":", forms, told.who.as_ref())?;
    text.extend_from_slice(b"}")?;
    Ok(())
}

// Appends a list of those.
#[tactic(auto, unfolding(crate::specs::Json::array))]
fn push_breaks(
    alloc: Global,
    text: &mut Vec<u8>,
    forms: &[Sexpr],
    properties: &[Property],
    breaks: &[BreakTold],
) -> Result<(), AllocError>
    ensures { OnOk result (text.new.items ≡ text.old.items ++ json.array (map (spec.break_json forms.now properties.now) breaks.now)) }
{
    text.extend_from_slice(b"[")?;
    for place in 0..breaks.len() {
        push_comma(text, place)?;
        push_break(alloc, text, forms, properties, &breaks[place])?;
    }
    text.extend_from_slice(b"]")
}

// Appends by which seed and order the first run of a class is made, and how many items it has.
#[tactic(auto, unfolding(crate::specs::Explored::first_members))]
fn push_first(alloc: Global, text: &mut Vec<u8>, class: &ClassTold) -> Result<(), AllocError>
    ensures { OnOk result (text.new.items ≡ text.old.items ++ spec.first_members class.now) }
{
    push_number(alloc, text, b",\"seed\":", class.first)?;
    push_string(text, b",\"order\":", order_name(class.order).as_bytes())?;
    push_optional_number(alloc, text, b",\"depth\":", order_depth(class.order))?;
    push_number(alloc, text, b",\"items\":", class.items as u64)
}

// Appends whether a class is good, how many runs it has, and how many outputs these have.
#[tactic(auto, unfolding(crate::specs::Explored::size_members))]
fn push_size(alloc: Global, text: &mut Vec<u8>, class: &ClassTold) -> Result<(), AllocError>
    ensures { OnOk result (text.new.items ≡ text.old.items ++ spec.size_members class.now) }
{
    push_truth(text, b"{\"good\":", class.well)?;
    push_number(alloc, text, b",\"runs\":", class.runs)?;
    push_number(alloc, text, b",\"outputs\":", class.outputs as u64)
}

// Appends a class.
#[tactic(auto, unfolding(crate::specs::Explored::class_json, crate::specs::Explored::size_members, crate::specs::Explored::first_members))]
fn push_class(
    alloc: Global,
    text: &mut Vec<u8>,
    forms: &[Sexpr],
    properties: &[Property],
    servers: &[u32],
    class: &ClassTold,
) -> Result<(), AllocError>
    ensures { OnOk result (text.new.items ≡ text.old.items ++ spec.class_json forms.now properties.now servers.now class.now) }
{
    push_size(alloc, text, class)?;
    push_first(alloc, text, class)?;
    text.extend_from_slice(b",\"breaks\":")?;
    push_breaks(alloc, text, forms, properties, class.breaks.as_slice())?;
    push_run(alloc, text, b",\"run\":", forms, servers, &class.run)?;
    text.extend_from_slice(b"}")?;
    Ok(())
}

// Appends a list of classes.
#[tactic(auto, unfolding(crate::specs::Json::array))]
fn push_classes(
    alloc: Global,
    text: &mut Vec<u8>,
    forms: &[Sexpr],
    properties: &[Property],
    servers: &[u32],
    classes: &[ClassTold],
) -> Result<(), AllocError>
    ensures { OnOk result (text.new.items ≡ text.old.items ++ json.array (map (spec.class_json forms.now properties.now servers.now) classes.now)) }
{
    text.extend_from_slice(b"[")?;
    for place in 0..classes.len() {
        push_comma(text, place)?;
        push_class(alloc, text, forms, properties, servers, &classes[place])?;
    }
    text.extend_from_slice(b"]")
}

// Appends these bytes, and the run at which it stopped, or `null`.
#[tactic(auto, unfolding(crate::specs::Explored::stop_json, crate::specs::Explored::until_json, crate::specs::Json::optional))]
fn push_stop(
    alloc: Global,
    text: &mut Vec<u8>,
    before: &[u8],
    stop: Option<Stopped>,
) -> Result<(), AllocError>
    ensures { OnOk result (text.new.items ≡ text.old.items ++ (before.now ++ json.optional spec.stop_json stop)) }
{
    let Some(stop) = stop else {
        return push_null(text, before);
    };
    text.extend_from_slice(before)?;
    push_number(alloc, text, b"{\"seed\":", stop.seed)?;
    push_string(text, b",\"order\":", order_name(stop.order).as_bytes())?;
    push_optional_number(alloc, text, b",\"depth\":", order_depth(stop.order))?;
    push_string(text, b",\"kind\":", until_name(stop.kind).as_bytes())?;
    text.extend_from_slice(b"}")
}

// Whether a class is bad.
fn is_bad(class: &ClassTold) -> bool
    ensures { result ≡ not class.now.well }
{
    !class.well
}

// Whether one of these classes is bad.
fn some_bad(classes: &[ClassTold]) -> bool
    ensures { result ≡ list_any (λ c. not c.well) classes.now }
{
    classes.iter().any(is_bad)
}

// The verdict, where some class is bad, or none.
#[tactic(auto, unfolding(crate::specs::Explored::verdict_word))]
fn verdict_word(bad: bool) -> &'static str
    ensures { result.now ≡ spec.verdict_word bad }
{
    if bad { "bad" } else { "good" }
}

// Appends how many runs there are, and by which seeds.
#[tactic(auto, unfolding(crate::specs::Explored::made_members))]
fn push_made(
    alloc: Global,
    text: &mut Vec<u8>,
    name: &str,
    told: &RunsTold,
) -> Result<(), AllocError>
    ensures { OnOk result (text.new.items ≡ text.old.items ++ spec.made_members name.now told.now) }
{
    push_string(text, b"{\"command\":", b"explore")?;
    push_string(text, b",\"script\":", name.as_bytes())?;
    push_number(alloc, text, b",\"asked\":", told.asked)?;
    push_number(alloc, text, b",\"runs\":", told.runs)?;
    push_number(alloc, text, b",\"first_seed\":", told.first)?;
    push_optional_number(alloc, text, b",\"last_seed\":", told.last)
}

// Appends in which order they were made, and their classes.
#[tactic(auto, unfolding(crate::specs::Explored::class_members))]
fn push_order(
    alloc: Global,
    text: &mut Vec<u8>,
    forms: &[Sexpr],
    properties: &[Property],
    told: &RunsTold,
) -> Result<(), AllocError>
    ensures { OnOk result (text.new.items ≡ text.old.items ++ spec.class_members forms.now properties.now told.now) }
{
    let classes = told.classes.as_slice();
    let servers = told.servers.as_slice();
    push_string(text, b",\"order\":", orders_name(told.orders).as_bytes())?;
    push_optional_number(alloc, text, b",\"depth\":", orders_depth(told.orders))?;
    text.extend_from_slice(b",\"classes\":")?;
    push_classes(alloc, text, forms, properties, servers, classes)
}

// Appends at which runs it was to stop, and at which it did.
#[tactic(auto, unfolding(crate::specs::Explored::stop_members))]
fn push_stops(alloc: Global, text: &mut Vec<u8>, told: &RunsTold) -> Result<(), AllocError>
    ensures { OnOk result (text.new.items ≡ text.old.items ++ spec.stop_members told.now) }
{
    let kinds = kinds_text(alloc, told.until.as_slice())?;
    text.extend_from_slice(b",\"until\":")?;
    text.extend_from_slice(kinds.as_slice())?;
    push_stop(alloc, text, b",\"stopped\":", told.stop)
}

/// What `explore` tells of the script that has this name and forms, of which these properties are wanted, as an object and a line feed.
///
/// # Errors
/// Out of memory.
#[tactic(auto, unfolding(crate::specs::Explored::explore_json, crate::specs::Explored::made_members, crate::specs::Explored::class_members, crate::specs::Explored::stop_members))]
pub fn explore_json(
    alloc: Global,
    name: &str,
    forms: &[Sexpr],
    properties: &[Property],
    told: &RunsTold,
) -> Result<Vec<u8>, AllocError>
    ensures { IfOk result (λ text. text.items ≡ spec.explore_json name.now forms.now properties.now told.now) }
{
    let mut text = Vec::new(alloc);
    push_made(alloc, &mut text, name, told)?;
    push_order(alloc, &mut text, forms, properties, told)?;
    push_stops(alloc, &mut text, told)?;
    let verdict = verdict_word(some_bad(told.classes.as_slice()));
    push_string(&mut text, b",\"verdict\":", verdict.as_bytes())?;
    text.extend_from_slice(b"}\n")?;
    Ok(text)
}
