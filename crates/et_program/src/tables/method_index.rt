//! Methods by class, name and descriptor, before there is a program.

ghost use Rattle.std.specs.Prelude.{◌≡◌, ◌<◌, ◌^◌, length, IfOk};
ghost use Rattle.std.specs.List.{position_from};
ghost use Rattle.et_program.specs.Members.{is_method};
ghost use Rattle.et_program.specs.Finding.{FindsMethods};

use crate::info::MethodInfo;
use crate::tables::order::{Key, Order, Table};
use et_base::{ClassId, MethodId, NoMemory};
use std::alloc::Global;

/// The order in which the methods of a list are found by class, name and descriptor; the first of each. The names stand in the
/// list alone, so each look-up is given the list.
#[derive(Drop)]
pub struct MethodIndex {
    order: Order,
}

impl MethodIndex {
    /// The index of these methods. The only error is want of memory.
    pub fn of(alloc: Global, methods: &[MethodInfo]) -> Result<Self, NoMemory>
        requires { length methods.now < 2 ^ 32 }
        ensures { IfOk result (λ x. FindsMethods x methods.now) }
    {
        let order = Order::of(alloc, Table::Methods(methods))?;
        Ok(MethodIndex { order })
    }

    /// The place of the method of a class with this name and descriptor among the methods of which this is the index.
    pub fn find(
        &self,
        methods: &[MethodInfo],
        name: &[u8],
        descriptor: &[u8],
        class: ClassId,
    ) -> Option<MethodId>
        requires { FindsMethods self.now methods.now }
        ensures { result ≡ position_from (is_method name.now descriptor.now class) 0 methods.now }
    {
        let key = Key::of_member(name, descriptor, class);
        let method = self.order.find(Table::Methods(methods), key)?;
        Some(MethodId::new(method))
    }
}
