//! The program: its tables, and what stands at each number.

ghost use Rattle.std.specs.Prelude.{◌≡◌, ℕ, ◌<◌, ◌==◌, length, All, IfOk, IfSome, codes, option_map, slice_get};
ghost use Rattle.std.specs.List.{list_any};
ghost use Rattle.std.specs.Option.{option_copied};
ghost use Rattle.std.specs.Str.{bytes_eq};

use crate::errors::LinkError;
use crate::info::{ClassInfo, FieldInfo, MethodInfo};
use crate::lookup::resolved::{Resolved, ResolvedPool};
use crate::shapes::{PoolShapes, shapes_of};
use crate::signatures::{Signature, Sought, signatures_of};
use crate::tables::Tables;
use crate::tables::class::Class;
use crate::tables::indices::index_base_arrays;
use crate::tables::order::{Key, Order, Table};
use et_base::{ClassId, FieldId, MethodId, NoMemory};
use et_boot::{BuiltIn, TextMethod};
use et_class::{CallShape, Pool};
use std::alloc::Global;
use std::marker::Model;

/// The linked classes with their members. Contracts see it as the tables of the definition. No call of it takes memory. Each name
/// stands in its table alone, and a look-up by name goes by halves through the order of the names: no choice of names makes it
/// slow.
#[derive(Drop)]
pub struct Program {
    classes: Vec<Class>,
    methods: Vec<MethodInfo>,
    fields: Vec<FieldInfo>,
    statics: Vec<FieldId>,
    file_methods: Vec<MethodId>,
    main: MethodId,
    pools: Vec<Pool>,
    base_arrays: Vec<Option<ClassId>>,
    class_order: Order,
    method_order: Order,
    field_order: Order,
    signatures: Vec<Signature>,
    shapes: Vec<PoolShapes>,
    resolved: Vec<ResolvedPool>,
}

impl Model for Program {
    ghost use Rattle.et_program.specs.Entries.{Linked};
    ghost use Rattle.et_program.specs.Tables.{IsTabled, AreIndexed};
    ghost use Rattle.et_program.specs.Linking.{IsLinked};
    ghost use Rattle.et_program.specs.Resolved.{AreResolved};
    ghost use Rattle.et_program.specs.Shapes.{AreShaped};
    ghost use Rattle.et_program.specs.Signatures.{AreSigned};

    ghost Value = { Linked };

    ghost view = { λ p. record {
      classes = p.classes.items;
      methods = p.methods.items;
      fields = p.fields.items;
      statics = p.statics.items;
      file_methods = p.file_methods.items;
      main = p.main;
      pools = p.pools.items;
    } };

    ghost invariant = { λ p. let l : Linked = record {
      classes = p.classes.items;
      methods = p.methods.items;
      fields = p.fields.items;
      statics = p.statics.items;
      file_methods = p.file_methods.items;
      main = p.main;
      pools = p.pools.items;
    } in IsTabled l
        × AreIndexed l p.base_arrays.items p.class_order.entries.items p.method_order.entries.items
        p.field_order.entries.items
        × IsLinked l
        × AreSigned p.method_order.entries.items p.classes.items p.methods.items p.signatures.items
        × AreShaped p.pools.items p.shapes.items
        × AreResolved l p.resolved.items };
}

impl Program {
    /// Does nothing. Its contract is what holds of each program: what its tables name is in them, and it is that of class
    /// files, which show no fault (JVMS 5.3, 5.4).
    pub fn is_linked(&self)
        ensures tabled { IsTabled self.now }
        ensures linked { IsLinked self.now }
    {
        let _ = &self.classes;
    }

    /// The program of these tables, which are those of class files that link. What the entries of its pools refer to is
    /// resolved once, here, and what calls read off descriptors is read. The only error is want of memory.
    pub fn of(alloc: Global, tables: Tables) -> Result<Program, NoMemory>
        requires tabled { IsTabled (shown_tables tables) }
        requires linked { IsLinked (shown_tables tables) }
        ensures { IfOk result (λ p. p ≡ shown_tables tables) }
    {
        let mut program = Program::by_names(alloc, tables)?;
        let resolved = program.pools_resolved(alloc)?;
        program.keep_resolved(resolved);
        Ok(program)
    }

    /// Keeps what the entries of the pools refer to.
    fn keep_resolved(&mut self, resolved: Vec<ResolvedPool>)
        requires { AreResolved self.old resolved.items }
        ensures { self.new ≡ self.old }
    {
        self.resolved = resolved;
    }

    /// The program of these tables, in which nothing is kept of the entries of the pools. The only error is want of memory.
    fn by_names(alloc: Global, tables: Tables) -> Result<Program, NoMemory>
        requires tabled { IsTabled (shown_tables tables) }
        requires linked { IsLinked (shown_tables tables) }
        ensures { IfOk result (λ p. p ≡ shown_tables tables) }
    {
        let base_arrays = index_base_arrays(alloc, tables.classes.as_slice())?;
        let methods = tables.methods.as_slice();
        let class_order = Order::of(alloc, Table::Classes(tables.classes.as_slice()))?;
        let method_order = Order::of(alloc, Table::Methods(methods))?;
        let field_order = Order::of(alloc, Table::Fields(tables.fields.as_slice()))?;
        let signatures = signatures_of(alloc, &method_order, tables.classes.as_slice(), methods)?;
        let shapes = shapes_of(alloc, tables.pools.as_slice())?;
        let Tables {
            classes,
            methods,
            fields,
            statics,
            file_methods,
            main,
            pools,
        } = tables;
        Ok(Program {
            classes,
            methods,
            fields,
            statics,
            file_methods,
            main,
            pools,
            base_arrays,
            class_order,
            method_order,
            field_order,
            signatures,
            shapes,
            resolved: Vec::new(alloc),
        })
    }

    ghost use Rattle.et_program.specs.Tables.{IsTabled};
    ghost use Rattle.et_program.specs.Linking.{IsLinked};
    ghost use Rattle.et_program.specs.Parts.{shown_tables};
    ghost use Rattle.et_program.specs.Entries.{class_at, method_at, field_at};
    ghost use Rattle.et_program.specs.Tables.{IsWithinTables, IsInfoWithin};
    ghost use Rattle.et_program.specs.Shown.{info_of};
    ghost use Rattle.et_program.specs.Members.{class_named, method_in, field_in, is_above, is_subclass, base_array};
    ghost use Rattle.et_program.specs.Resolution.{resolve_class};
    ghost use Rattle.et_program.specs.Resolved.{IsResolved, AreResolved};
    ghost use Rattle.et_class.specs.Operands.{shape_in};
    ghost use Rattle.et_program.specs.Shapes.{shape_referred};
    ghost use Rattle.et_program.specs.BuiltIns.{built_in_of, is_deferred, text_method_of};
    ghost use Rattle.et_program.specs.Signatures.{IsSought, sought_name, sought_descriptor};

    /// The class of this name, or `NoClassDefFound` exactly where the program has none (JVMS 5.4.3.1).
    pub fn resolve_class(&self, name: &[u8]) -> Result<ClassId, LinkError>
        ensures value { result ≡ resolve_class self.now name.now }
        ensures within { IfOk result (λ c. c < length self.now.classes) }
    {
        match self.class_named(name) {
            Some(class) => Ok(class),
            None => Err(LinkError::NoClassDefFound),
        }
    }

    /// The class of this name, by halves through the order of the names.
    fn class_named(&self, name: &[u8]) -> Option<ClassId>
        ensures { result ≡ class_named self.now name.now }
    {
        let key = Key {
            name,
            descriptor: &[],
            class: 0,
        };
        let table = Table::Classes(self.classes.as_slice());
        let class = self.class_order.find(table, key)?;
        Some(ClassId::new(class))
    }

    /// The class of this number.
    pub fn class(&self, class: ClassId) -> &ClassInfo
        requires { class < length self.now.classes }
        ensures value { info_of result.now ≡ (class_at self.now class).info }
        ensures within { IsInfoWithin (length self.now.classes)
            (length self.now.methods) (length self.now.fields) (info_of result.now) }
    {
        self.entry(class).info()
    }

    /// What is kept of a class.
    pub(crate) fn entry(&self, class: ClassId) -> &Class
        requires { class < length self.now.classes }
        ensures value { result.now ≡ class_at self.now class }
        ensures within { IsWithinTables (length self.now.classes) result.now }
        ensures info { IsInfoWithin (length self.now.classes)
            (length self.now.methods) (length self.now.fields) result.now.info }
    {
        &self.classes[class.number() as usize]
    }

    /// The method of this number.
    pub fn method(&self, method: MethodId) -> &MethodInfo
        requires { method < length self.now.methods }
        ensures value { result.now ≡ method_at self.now method }
        ensures class { result.now.class < length self.now.classes }
    {
        &self.methods[method.number() as usize]
    }

    /// The field of this number.
    pub fn field(&self, field: FieldId) -> &FieldInfo
        requires { field < length self.now.fields }
        ensures value { result.now ≡ field_at self.now field }
        ensures class { result.now.class < length self.now.classes }
    {
        &self.fields[field.number() as usize]
    }

    /// How many classes there are; their numbers are those below.
    pub fn class_count(&self) -> u32
        ensures { result ≡ length self.now.classes }
    {
        self.classes.len() as u32
    }

    /// How many methods there are; their numbers are those below.
    pub fn method_count(&self) -> u32
        ensures { result ≡ length self.now.methods }
    {
        self.methods.len() as u32
    }

    /// The static fields, in the order of their slots.
    pub fn statics(&self) -> &[FieldId]
        ensures value { result.now ≡ self.now.statics }
        ensures within { All (λ k. k < length self.now.fields) result.now }
    {
        self.statics.as_slice()
    }

    /// The methods of the files, in their order.
    pub fn file_methods(&self) -> &[MethodId]
        ensures value { result.now ≡ self.now.file_methods }
        ensures within { All (λ k. k < length self.now.methods) result.now }
    {
        self.file_methods.as_slice()
    }

    /// The method `main` of the first file.
    pub fn main(&self) -> MethodId
        ensures value { result ≡ self.now.main }
        ensures within { result < length self.now.methods }
    {
        self.main
    }

    /// The constant pool of a class of the files or of a built-in class; `None` for an array class.
    pub fn pool(&self, class: ClassId) -> Option<&Pool>
        requires { class < length self.now.classes }
        ensures { option_copied result ≡ slice_get self.now.pools class }
    {
        self.pools.get(class.number() as usize)
    }

    /// What is kept of the entry at an index of the pool of a class.
    pub(crate) fn kept_at(&self, class: ClassId, index: u16) -> Resolved
        ensures { IsResolved self.now class index result }
    {
        match self.resolved.get(class.number() as usize) {
            Some(pool) => pool.at(index),
            None => Resolved::Nothing,
        }
    }

    /// What a call reads off the descriptor of the member that the entry at an index of the pool of a class gives; `None`
    /// where it gives none, or one whose descriptor is not that of a method. It was read as the program was linked.
    pub fn call_shape(&self, class: ClassId, index: u16) -> Option<&CallShape>
        ensures { option_map (λ s. s.now) result ≡ shape_referred self.now class index }
    {
        match self.shapes.get(class.number() as usize) {
            Some(pool) => pool.at(index),
            None => None,
        }
    }

    /// What a call reads off the descriptor of a method; `None` where that is none. It was read as the program was linked.
    pub fn method_shape(&self, method: MethodId) -> Option<&CallShape>
        requires { method < length self.now.methods }
        ensures { option_map (λ s. s.now) result ≡ shape_in (method_at self.now method).descriptor }
    {
        self.signatures[method.number() as usize].shape.as_ref()
    }

    /// The built-in method that a method without code is; `None` exactly where it is abstract, or has the name and descriptor
    /// of none. It was looked for as the program was linked.
    pub fn built_in(&self, method: MethodId) -> Option<BuiltIn>
        requires { method < length self.now.methods }
        ensures { result ≡ built_in_of (method_at self.now method) }
    {
        self.signatures[method.number() as usize].built_in
    }

    /// Whether a method is a built-in one without code of threads, of weak references or of their queues, or of texts. It was
    /// found out as the program was linked.
    pub fn is_deferred(&self, method: MethodId) -> bool
        requires { method < length self.now.methods }
        ensures { result ≡ is_deferred self.now method }
    {
        self.signatures[method.number() as usize].is_deferred
    }

    /// What a method does with texts, where it is one of String, StringBuilder or PrintStream; `None` exactly where it is
    /// none. It was found out as the program was linked.
    pub fn text_method(&self, method: MethodId) -> Option<TextMethod>
        requires { method < length self.now.methods }
        ensures { result ≡ text_method_of self.now method }
    {
        self.signatures[method.number() as usize].text_method
    }

    /// Whether a method is named `<init>` (JVMS 2.9.1).
    pub(crate) fn is_constructor(&self, method: MethodId) -> bool
        requires { method < length self.now.methods }
        ensures { result ≡ bytes_eq (method_at self.now method).name (codes "<init>") }
    {
        self.signatures[method.number() as usize].is_constructor
    }

    /// The class of the arrays of these elements, or `None` where the program has none.
    pub fn array_over(&self, element: ClassId) -> Option<ClassId>
        requires { element < length self.now.classes }
        ensures value { result ≡ (class_at self.now element).array }
        ensures within { IfSome result (λ c. c < length self.now.classes) }
    {
        self.entry(element).array()
    }

    /// The class of the arrays over a base type, by its code in `newarray` (JVMS 6.5, table newarray), or `None`
    /// where the program has none.
    pub fn base_array(&self, kind: u8) -> Option<ClassId>
        ensures value { result ≡ base_array self.now kind }
        ensures within { IfSome result (λ c. c < length self.now.classes) }
    {
        self.base_arrays.get(kind as usize).copied().flatten()
    }

    /// The classes that are initialized with a class, in order, and the class itself as the last (JVMS 5.5).
    pub fn init_order(&self, class: ClassId) -> &[ClassId]
        requires { class < length self.now.classes }
        ensures value { result.now ≡ (class_at self.now class).init_order }
        ensures within { All (λ k. k < length self.now.classes) result.now }
    {
        self.entry(class).init_order()
    }

    /// Whether the class `low` is `high`, or has it as a superclass or superinterface.
    pub fn is_subclass(&self, low: ClassId, high: ClassId) -> bool
        requires { low < length self.now.classes }
        ensures { result ≡ is_subclass self.now low high }
    {
        let class = self.entry(low);
        low == high || class.supers().contains(&high) || self.is_above(high, low)
    }

    /// Whether an interface is a superinterface of the other class.
    pub(crate) fn is_above(&self, interface: ClassId, class: ClassId) -> bool
        requires { class < length self.now.classes }
        ensures { result ≡ is_above self.now interface class }
    {
        self.entry(class).superinterfaces().contains(&interface)
    }

    /// The method of a class with this name and descriptor, by halves through the order of all.
    fn method_by_key(&self, name: &[u8], descriptor: &[u8], class: ClassId) -> Option<MethodId>
        ensures { result ≡ method_in self.now name.now descriptor.now class }
    {
        let key = Key::of_member(name, descriptor, class);
        let table = Table::Methods(self.methods.as_slice());
        let method = self.method_order.find(table, key)?;
        Some(MethodId::new(method))
    }

    /// The method of a class with the name and the descriptor of a method, by halves through those that have them.
    fn method_like(&self, method: MethodId, class: ClassId) -> Option<MethodId>
        requires { method < length self.now.methods }
        ensures { result ≡ method_in self.now (method_at self.now method).name
            (method_at self.now method).descriptor class }
    {
        let signature = &self.signatures[method.number() as usize];
        let found = self
            .method_order
            .find_among(signature.start, signature.end, class.number())?;
        Some(MethodId::new(found))
    }

    /// The method of a class that is looked for.
    pub(crate) fn method_sought(&self, sought: &Sought<'_>, class: ClassId) -> Option<MethodId>
        requires { IsSought self.now sought.now }
        ensures value { result ≡ method_in self.now (sought_name self.now sought.now)
            (sought_descriptor self.now sought.now) class }
        ensures within { IfSome result (λ m. m < length self.now.methods) }
    {
        match *sought {
            Sought::Named { name, descriptor } => self.method_by_key(name, descriptor, class),
            Sought::Like(method) => self.method_like(method, class),
        }
    }

    /// The field of a class with this name and descriptor.
    pub(crate) fn field_in(&self, name: &[u8], descriptor: &[u8], class: ClassId) -> Option<FieldId>
        ensures value { result ≡ field_in self.now name.now descriptor.now class }
        ensures within { IfSome result (λ f. f < length self.now.fields) }
    {
        let key = Key::of_member(name, descriptor, class);
        let table = Table::Fields(self.fields.as_slice());
        let field = self.field_order.find(table, key)?;
        Some(FieldId::new(field))
    }
}
