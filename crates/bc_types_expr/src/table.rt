// What the names of a program mean.

ghost use Rattle.std.specs.Prelude.{◌≡◌, Some, None, IfSome, IfNone};
ghost use Rattle.bc_types_expr.specs.Types.{type_seen, types_seen};
ghost use Rattle.bc_types_expr.specs.Looks.{looks, signature_seen};

use crate::value_type::ValueType;
use bc_names::Names;

/// A method as its callers see it.
#[derive(Drop)]
pub struct Signature {
    pub formals: Vec<ValueType>,
    pub result: Option<ValueType>,
}

/// What a class declares beside its names: the types of its fields, the signatures of its methods, and its
/// constructor's formals.
#[derive(Drop)]
pub struct ClassTypes {
    pub fields: Vec<ValueType>,
    pub methods: Vec<Signature>,
    pub maker: Vec<ValueType>,
}

/// The names of a program, and the types of each class under its number.
#[derive(Drop)]
pub struct Table {
    pub names: Names,
    pub types: Vec<ClassTypes>,
}

impl Table {
    /// The number of a class.
    pub fn class(&self, name: &[u8]) -> Option<u32>
        ensures { result ≡ (looks self.now).class_of name.now }
    {
        self.names.class(name)
    }

    /// The number of a flag of a class.
    pub fn flag(&self, class: u32, name: &[u8]) -> Option<u32>
        ensures { result ≡ (looks self.now).flag_of class name.now }
    {
        self.names.flag(class, name)
    }

    /// The number of a tag type.
    pub fn tag_type(&self, name: &[u8]) -> Option<u32>
        ensures { result ≡ (looks self.now).tag_type_of name.now }
    {
        self.names.tag_type(name)
    }

    /// The number and the type of a field of a class.
    pub fn field(&self, class: u32, name: &[u8]) -> Option<(u32, &ValueType)>
        ensures some { IfSome result (λ r. (looks self.now).field_of class name.now ≡ Some (record { field = r.0; type = type_seen r.1.now })) }
        ensures none { IfNone result ((looks self.now).field_of class name.now ≡ None) }
    {
        let field = self.names.field(class, name)?;
        let types = self.types.get(class as usize)?;
        let kind = types.fields.get(field as usize)?;
        Some((field, kind))
    }

    /// The number and the signature of a method of a class.
    pub fn method(&self, class: u32, name: &[u8]) -> Option<(u32, &Signature)>
        ensures some { IfSome result (λ r. (looks self.now).method_of class name.now ≡ Some (record { method = r.0; signature = signature_seen r.1.now })) }
        ensures none { IfNone result ((looks self.now).method_of class name.now ≡ None) }
    {
        let method = self.names.method(class, name)?;
        let types = self.types.get(class as usize)?;
        let signature = types.methods.get(method as usize)?;
        Some((method, signature))
    }

    /// The formals of a class's constructor, none where it has no constructor.
    pub fn maker(&self, class: u32) -> &[ValueType]
        ensures { types_seen result.now ≡ (looks self.now).maker_formals class }
    {
        match self.types.get(class as usize) {
            Some(types) => types.maker.as_slice(),
            None => &[],
        }
    }
}
