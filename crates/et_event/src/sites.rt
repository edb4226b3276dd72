//! An instruction, with the code, the pool and the class in which it stands.
ghost use Rattle.std.specs.Prelude.{◌≡◌};
ghost use Rattle.std.specs.Option.{option_copied};
ghost use Rattle.et_event.specs.Pools.{pool_slots};

use et_base::ClassId;
use et_class::Pool;
use et_code::Instr;
use std::marker::Model;

/// An instruction, with what it names read in place: the code and the pool are borrowed from the program.
#[derive(Drop)]
pub struct Site<'a> {
    instr: Instr,
    next: u32,
    code: &'a [u8],
    pool: Option<&'a Pool>,
    class: ClassId,
}

impl<'a> Model for Site<'a> {
    ghost use Rattle.std.specs.Option.{option_copied};
    ghost use Rattle.et_event.specs.Pools.{pool_slots};
    ghost use Rattle.et_event.specs.Sites.{Site as TheSite};

    ghost Value = { TheSite };

    ghost view = { λ s. record {
      instr = s.instr;
      next = s.next;
      code = s.code.now;
      pool = pool_slots (option_copied s.pool);
      class = s.class;
    } };
}

impl<'a> Site<'a> {
    /// The site of an instruction, of the pc behind it, and of the code, the pool and the class in which it stands.
    #[inline]
    pub fn new(
        instr: Instr,
        next: u32,
        code: &'a [u8],
        pool: Option<&'a Pool>,
        class: ClassId,
    ) -> Self
        ensures { result ≡ record {
          instr = instr;
          next = next;
          code = code.now;
          pool = pool_slots (option_copied pool.entry);
          class = class;
        } }
    {
        Site {
            instr,
            next,
            code,
            pool,
            class,
        }
    }

    /// The instruction.
    #[inline]
    pub fn instr(&self) -> &Instr
        ensures { result.now ≡ self.now.instr }
    {
        &self.instr
    }

    /// The pc behind it.
    #[inline]
    pub fn next(&self) -> u32
        ensures { result ≡ self.now.next }
    {
        self.next
    }

    /// The code in which it stands.
    #[inline]
    pub fn code(&self) -> &'a [u8]
        ensures { result.now ≡ self.now.code }
    {
        self.code
    }

    /// The pool of its class, where that has one.
    #[inline]
    pub fn pool(&self) -> Option<&'a Pool>
        ensures { pool_slots (option_copied result) ≡ self.now.pool }
    {
        self.pool
    }

    /// The class that declares its method.
    #[inline]
    pub fn class(&self) -> ClassId
        ensures { result ≡ self.now.class }
    {
        self.class
    }
}
