//! Programs that were checked.

ghost use Rattle.std.specs.Prelude.{◌≡◌, ◌<◌, ◌≤◌, ℕ, List, IfOk, IfSome, MatchOption, Some, true, codes, length, map, slice_get, slice_index_or};
ghost use Rattle.std.specs.String.{string_bytes};
ghost use Rattle.cml_check.specs.{Heads.{numbered, takes}, InOrder.{InOrder, IsProgram, FunctionFits, arities, names_of}, Sizes.{size_of, IsWithinSize}};
ghost use Rattle.cml_check.specs.{Syntax.{no_stmts}, Layout.{left}, Follows.{Follows, instr_fits}, InstrViews.{plain_instr}, Ops.{OpFollows, op_fits}};

use crate::flat::{Op, shorts};
use crate::instr::Instr;
use crate::lay::lay;
use crate::size::Size;
use crate::syntax::Block;
use std::alloc::{AllocError, Global};
use std::marker::Model;
use std::sync::Arc;

/// A function: its name, the names of its slots, its parameters first, how many of them are parameters, and its statements. Its
/// instructions are those of its statements.
pub struct Function {
    pub(crate) name: String,
    pub(crate) names: Vec<String>,
    pub(crate) arity: u32,
    pub(crate) body: Block,
    code: Vec<Instr>,
    ops: Vec<Op>,
}

// Written out, so that how the parts are dropped is proved once, and whoever drops one calls this.
impl Drop for Function {
    fn drop(self) {
        let Function {
            name,
            names,
            arity: _,
            body,
            code,
            ops,
        } = self;
        drop(name);
        drop(names);
        drop(body);
        drop(code);
        drop(ops);
    }
}

impl Model for Function {
    ghost use Rattle.std.specs.{Prelude.{ℕ, map}, String.{string_bytes}};
    ghost use Rattle.cml_check.specs.{Syntax.{PlainItem}, SyntaxCodes.{plain_item_code}};

    ghost Value = { PlainItem ℕ };

    ghost coded = { plain_item_code };

    ghost view = { λ a. record {
      name = string_bytes a.name;
      names = map string_bytes a.names.items;
      arity = a.arity;
      body = a.body;
    } };

    ghost use Rattle.std.specs.Prelude.{◌≡◌};
    ghost use Rattle.cml_check.specs.{InstrViews.{plain_instr}, Layout.{code_of}, Ops.{AreShort}};

    ghost invariant = { λ a. (map plain_instr a.code.items ≡ code_of a.body)
        × AreShort (code_of a.body) a.ops.items };
}

impl Function {
    /// The function of these statements.
    pub(crate) fn new(
        alloc: Global,
        name: String,
        names: Vec<String>,
        arity: u32,
        body: Block,
    ) -> Result<Function, AllocError>
        ensures { IfOk result (λ f. f ≡ record {
          name = string_bytes name;
          names = map string_bytes names.items;
          arity = arity;
          body = body;
        }) }
    {
        let code = lay(alloc, &body)?;
        let ops = shorts(alloc, code.as_slice())?;
        Ok(Function {
            name,
            names,
            arity,
            body,
            code,
            ops,
        })
    }

    /// The instruction at a place: the first of the statements that are left there, with the places after it. There is none where no
    /// statement is left. The function begins at place 0.
    #[tactic(auto, using(crate::proofs::Instrs::instr_follows, crate::proofs::Instrs::instr_fit, crate::proofs::Instrs::no_instr))]
    pub fn instr(&self, at: usize) -> Option<&Instr>
        ensures follows { let left_at = left self.now.body in
            MatchOption result (left_at at ≡ no_stmts)
            (λ i. Follows left_at (plain_instr i.now) (left_at at)) }
        ensures fits { (arities : List ℕ) → FunctionFits arities self.now →
            IfSome result (λ i.
            instr_fits arities (length self.now.names) (plain_instr i.now) ≡ true) }
    {
        if at < self.code.len() {
            Some(&self.code[at])
        } else {
            None
        }
    }

    /// The same instruction in its short form.
    #[inline(always)]
    #[tactic(auto, using(crate::proofs::Instrs::op_follows, crate::proofs::Instrs::op_fit))]
    pub fn op(&self, at: usize) -> Option<&Op>
        ensures follows { let left_at = left self.now.body in
            IfSome result (λ o. OpFollows left_at o.now (left_at at)) }
        ensures fits { (arities : List ℕ) → FunctionFits arities self.now →
            IfSome result (λ o. op_fits arities (length self.now.names) o.now ≡ true) }
    {
        if at >= self.ops.len() {
            return None;
        }
        Some(&self.ops[at])
    }
}

/// A program in which each function, each slot and each number of values is in order, and which has a `main`. Its copies share it.
pub struct Prog {
    shared: Arc<Vec<Function>>,
    main: u32,
    statements: u32,
}

// Written out, so that how the parts are dropped is proved once, and whoever drops one calls this.
impl Drop for Prog {
    fn drop(self) {
        let Prog {
            shared,
            main: _,
            statements: _,
        } = self;
        drop(shared);
    }
}

impl Model for Prog {
    ghost use Rattle.std.specs.{Prelude.{ℕ, List}, Coded.{coded_list}};
    ghost use Rattle.cml_check.specs.{Syntax.{PlainItem}, SyntaxCodes.{plain_item_code}};

    ghost Value = { List (PlainItem ℕ) };

    ghost coded = { coded_list plain_item_code };

    ghost use Rattle.cml_check.specs.InOrder.{IsProgram};

    ghost view = { λ a. a.shared.value.items };

    ghost invariant = { λ a. IsProgram a.main a.statements a.shared.value.items };
}

impl Prog {
    /// A program of these functions, of which the one of this number is `main`, and which have that many statements.
    pub(crate) fn new(
        alloc: Global,
        functions: Vec<Function>,
        main: u32,
        statements: u32,
    ) -> Result<Prog, AllocError>
        requires { IsProgram main statements functions.items }
        ensures { IfOk result (λ program. program ≡ functions.items) }
    {
        let shared = Arc::new(alloc, functions)?;
        Ok(Prog {
            shared,
            main,
            statements,
        })
    }

    /// The number of `main`, with which a program begins. It takes no value.
    pub fn main(&self) -> u32
        ensures found { numbered (names_of self.now) (codes "main") ≡ Some result }
        ensures takes { takes (arities self.now) result 0 ≡ true }
    {
        self.main
    }

    /// How many functions there are.
    pub fn functions(&self) -> usize
        ensures count { result ≡ length self.now }
        ensures order { InOrder self.now }
    {
        self.shared.len()
    }

    /// How many functions there are, and how many statements: at most 1,024 and 4,096.
    pub fn size(&self) -> Size
        ensures size { result ≡ size_of self.now }
        ensures limits { IsWithinSize result }
    {
        let statements = self.statements;
        Size {
            functions: self.functions() as u32,
            statements,
        }
    }

    /// How many parameters the function of this number has, if it is there.
    pub fn arity(&self, func: u32) -> Option<u32>
        ensures { result ≡ slice_get (arities self.now) func }
    {
        match self.shared.get(func as usize) {
            Some(function) => Some(function.arity),
            None => None,
        }
    }

    /// The function of this number.
    pub fn function(&self, func: u32) -> &Function
        requires { func < length self.now }
        ensures found { result.now ≡ slice_index_or self.now func result.now }
        ensures fits { FunctionFits (arities self.now) result.now }
    {
        &self.shared[func as usize]
    }

    // All functions.
    pub(crate) fn as_slice(&self) -> &[Function]
        ensures { result.now ≡ self.now }
    {
        self.shared.as_slice()
    }

    /// The same program, which both share from now on.
    pub fn copy(&self) -> Result<Prog, AllocError>
        ensures { IfOk result (λ program. program ≡ self.now) }
    {
        let shared = Arc::try_clone(&self.shared)?;
        Ok(Prog {
            shared,
            main: self.main,
            statements: self.statements,
        })
    }
}
