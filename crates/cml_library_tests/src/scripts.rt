//! What is said of faults of scripts and texts: of each keyword, of what is wanted at each place, and of faults that a script or a text does
//! not have, or that take a long script.

use crate::making::{MEMORY, forms};
use cml_check::{CheckFault, CheckKind, Word, check};
use cml_explain::{ScriptTrouble, Trouble, explain_script, explain_text, write_script};
use cml_text::{FaultKind, Sexpr};
use std::process::Abort;
use std::rt::HostRuntime;

// What the script is told at this fault, which it need not have.
fn says(rt: &(impl Abort + AllocGlobal), script: &str, kind: CheckKind, at: usize, expected: &str) {
    let forms = forms(rt, script);
    let text = script.as_bytes();
    let said = explain_script(rt.alloc(), "a.cml", text, forms.as_slice(), kind, at);
    let said = said.expect(rt, MEMORY);
    assert!(rt; said.as_slice() == expected.as_bytes());
    drop(said);
    drop(forms);
}

// Scripts with a fault, and the sentence on it.
const SENTENCES: &str = "
(fn) => fn takes a name, parameters in parentheses, and statements; the name is missing
(fn f) => fn takes a name, parameters in parentheses, and statements; the list of parameters is missing
(fn 1 ()) => the name of the function is wanted here
(fn f 1) => the parameters are wanted here, in parentheses
(fn f (1)) => the name of a parameter is wanted here
(fn main () (let)) => let takes a name and a value; the name is missing
(fn main () (let a)) => let takes a name and a value; the value is missing
(fn main () (let a ((b)))) => a value or an effect is wanted here
(fn main () (let a 1) (set a ((b)))) => a value is wanted here
(fn main () (set)) => set takes a variable and a value; the variable is missing
(fn main () (set a)) => set takes a variable and a value; the value is missing
(fn main () (if)) => if takes a condition and two (do ..) blocks; the condition is missing
(fn main () (if 1)) => if takes a condition and two (do ..) blocks; the first is missing
(fn main () (if 1 (do))) => if takes a condition and two (do ..) blocks; the second is missing
(fn main () (while)) => while takes a condition and statements; the condition is missing
(fn main () (return)) => return takes a value; it is missing
(fn main () (return 1 2)) => return takes a value, and is given 2 parts
(fn main () (return ((b)))) => a value is wanted here
(fn main () (call)) => call takes a function and the values that it is given; the function is missing
(fn main () (spawn)) => spawn takes a function and the values that it is given; the function is missing
(fn main () (mvar 1 2)) => mvar takes a value or nothing, and is given 2 parts
(fn main () (chan 1)) => chan takes nothing, and is given 1 part
(fn main () (swapchan 1)) => swapchan takes nothing, and is given 1 part
(fn main () (ivar 1)) => ivar takes nothing, and is given 1 part
(fn main () (mailbox 1)) => mailbox takes nothing, and is given 1 part
(fn main () (mchan 1)) => mchan takes nothing, and is given 1 part
(fn main () (exit 1)) => exit takes nothing, and is given 1 part
(fn main () (yield 1)) => yield takes nothing, and is given 1 part
(fn main () (self 1)) => self takes nothing, and is given 1 part
(fn main () (now 1)) => now takes nothing, and is given 1 part
(fn main () (sync)) => sync takes an event; it is missing
(fn main () (port)) => port takes a multicast channel; it is missing
(fn main () (copy)) => copy takes a port; it is missing
(fn main () (print)) => print takes a value; it is missing
(fn main () (iput)) => iput takes an I-variable and a value; the I-variable is missing
(fn main () (iput 1)) => iput takes an I-variable and a value; the value is missing
(fn main () (mput)) => mput takes an M-variable and a value; the M-variable is missing
(fn main () (mput 1)) => mput takes an M-variable and a value; the value is missing
(fn main () (mail)) => mail takes a mailbox and a value; the mailbox is missing
(fn main () (mail 1)) => mail takes a mailbox and a value; the value is missing
(fn main () (multicast)) => multicast takes a multicast channel and a value; the multicast channel is missing
(fn main () (multicast 1)) => multicast takes a multicast channel and a value; the value is missing
(fn main () (return (not))) => not takes a truth value; it is missing
(fn main () (return (fst))) => fst takes a pair; it is missing
(fn main () (return (snd))) => snd takes a pair; it is missing
(fn main () (return (always))) => always takes a value; it is missing
(fn main () (return (recv))) => recv takes a channel; it is missing
(fn main () (return (iget))) => iget takes an I-variable; it is missing
(fn main () (return (mtake))) => mtake takes an M-variable; it is missing
(fn main () (return (mget))) => mget takes an M-variable; it is missing
(fn main () (return (mailrecv))) => mailrecv takes a mailbox; it is missing
(fn main () (return (portrecv))) => portrecv takes a port; it is missing
(fn main () (return (join))) => join takes a thread; it is missing
(fn main () (return (at))) => at takes a tick; it is missing
(fn main () (return (after))) => after takes a number of ticks; it is missing
(fn main () (return (+))) => + takes two numbers; the first is missing
(fn main () (return (+ 1))) => + takes two numbers; the second is missing
(fn main () (return (-))) => - takes two numbers; the first is missing
(fn main () (return (- 1))) => - takes two numbers; the second is missing
(fn main () (return (*))) => * takes two numbers; the first is missing
(fn main () (return (* 1))) => * takes two numbers; the second is missing
(fn main () (return (<))) => < takes two numbers; the first is missing
(fn main () (return (< 1))) => < takes two numbers; the second is missing
(fn main () (return (=))) => = takes two values; the first is missing
(fn main () (return (= 1))) => = takes two values; the second is missing
(fn main () (return (pair))) => pair takes two values; the first is missing
(fn main () (return (pair 1))) => pair takes two values; the second is missing
(fn main () (return (send))) => send takes a channel and a value; the channel is missing
(fn main () (return (send 1))) => send takes a channel and a value; the value is missing
(fn main () (return (swap))) => swap takes a swap channel and a value; the swap channel is missing
(fn main () (return (swap 1))) => swap takes a swap channel and a value; the value is missing
(fn main () (return (mswap))) => mswap takes an M-variable and a value; the M-variable is missing
(fn main () (return (mswap 1))) => mswap takes an M-variable and a value; the value is missing
(fn main () (return (wrap))) => wrap takes an event, a function and the values that it is given; the event is missing
(fn main () (return (wrap never))) => wrap takes an event, a function and the values that it is given; the function is missing
(fn main () (return (guard))) => guard takes a function and the values that it is given; the function is missing
(fn main () (return (withnack))) => withnack takes a function and the values that it is given; the function is missing
";

// The kind of the script's fault, and where it stands.
fn fault_of(rt: &(impl Abort + AllocGlobal), forms: &[Sexpr], script: &str) -> (CheckKind, usize) {
    match check(rt.alloc(), forms) {
        Err(CheckFault::At { kind, at }) => (kind, at),
        _ => panic!(rt; "no fault: {script}"),
    }
}

// The sentence on the script's fault, which stands in its only line.
fn is_told(rt: &(impl Abort + AllocGlobal), script: &str, sentence: &str) {
    let forms = forms(rt, script);
    let (kind, at) = fault_of(rt, forms.as_slice(), script);
    let text = script.as_bytes();
    let said = explain_script(rt.alloc(), "a.cml", text, forms.as_slice(), kind, at);
    let said = said.expect(rt, MEMORY);
    let column = at.saturating_add(1);
    let line = format!(in rt.alloc(); "a.cml:1:{column}: {sentence}\n").expect(rt, MEMORY);
    assert!(rt; said.as_slice().starts_with(line.as_bytes()), "{script}");
    drop(line);
    drop(said);
    drop(forms);
}

#[test]
fn says_what_each_keyword_takes_and_what_is_wanted(rt: HostRuntime) {
    for line in SENTENCES.lines() {
        if let Some((script, sentence)) = line.split_once(" => ") {
            is_told(&rt, script, sentence);
        }
    }
}

#[test]
fn explains_what_the_script_does_not_have(rt: HostRuntime) {
    says(
        &rt,
        "(fn main ())",
        CheckKind::Form,
        2,
        "a.cml:1:3: this form does not fit here\n",
    );
    says(
        &rt,
        "(fn main () (call g))",
        CheckKind::Arity,
        18,
        "a.cml:1:19: `g` takes another number of values\n1 | (fn main () (call g))\n  |                   ^\n",
    );
    says(
        &rt,
        "(fn main () (return (choose 1)))",
        CheckKind::Form,
        20,
        "a.cml:1:21: choose takes events, and is given 1 part\n1 | (fn main () (return (choose 1)))\n  |                     ^^^^^^^^^^\n",
    );
}

#[test]
fn explains_what_takes_a_long_script(rt: HostRuntime) {
    says(
        &rt,
        "(fn main ())",
        CheckKind::Limit,
        0,
        "a.cml:1:1: a script has at most 1024 functions\n1 | (fn main ())\n  | ^^^^^^^^^^^^\n",
    );
    says(
        &rt,
        "(fn main () (yield))",
        CheckKind::Limit,
        12,
        "a.cml:1:13: a script has at most 4096 statements\n1 | (fn main () (yield))\n  |             ^^^^^^^\n",
    );
}

// No list that begins with `do` has too many parts.
#[test]
fn says_what_a_block_takes(rt: HostRuntime) {
    let trouble = ScriptTrouble {
        trouble: Trouble::Exceeds(Word::Do, 2),
        at: 0,
        marked_to: None,
        name: "do",
        parameters: None,
        hint: None,
    };
    let said = write_script(rt.alloc(), "a.cml", b"", &trouble).expect(&rt, MEMORY);
    let expected = b"a.cml:1:1: do takes statements, and is given 2 parts\n";
    assert!(rt; said.as_slice() == expected.as_slice());
    drop(said);
}

#[test]
fn explains_what_the_text_does_not_have(rt: HostRuntime) {
    let said = explain_text(rt.alloc(), "", b"(a)", FaultKind::Character, 9).expect(&rt, MEMORY);
    let expected = b":1:4: `` is neither a number nor a name\n1 | (a)\n  |    ^\n";
    assert!(rt; said.as_slice() == expected.as_slice());
    drop(said);
}
