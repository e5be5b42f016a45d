//! The parts of types.

use super::Walk;
use bal_tree::{
    FieldTree, IntersectionType, Param, ParamType, ParamTypes, Params, PostfixType, PrimaryType,
    TypeTree,
};

impl Walk {
    /// Goes through a type.
    #[cycle(types)]
    pub fn in_type(&mut self, t: &mut TypeTree) {
        match t {
            TypeTree::Intersection(t) => self.in_intersection(t),
            TypeTree::Union { left, right, .. } => {
                self.type_operand(left);
                self.intersection_operand(right)
            }
        }
    }

    #[cycle(types)]
    fn in_intersection(&mut self, t: &mut IntersectionType) {
        match t {
            IntersectionType::Postfix(t) => self.in_suffixed(t),
            IntersectionType::Both { left, right, .. } => {
                self.intersection_operand(left);
                self.suffixed_operand(right)
            }
        }
    }

    #[cycle(types)]
    fn in_suffixed(&mut self, t: &mut PostfixType) {
        match t {
            PostfixType::Primary(t) => self.in_primary_type(t),
            PostfixType::Optional { of, .. } => self.suffixed_operand(of),
            PostfixType::Array { member, .. } => self.suffixed_operand(member),
            PostfixType::FixedArray { member, .. } => self.suffixed_operand(member),
        }
    }

    /// Goes through a type that is an operand.
    #[cycle(types)]
    pub fn type_operand(&mut self, t: &mut TypeTree) {
        self.in_type(t);
        self.close_type(t)
    }

    #[cycle(types)]
    fn intersection_operand(&mut self, t: &mut IntersectionType) {
        self.in_intersection(t);
        self.close_intersection(t)
    }

    #[cycle(types)]
    fn suffixed_operand(&mut self, t: &mut PostfixType) {
        self.in_suffixed(t);
        self.close_suffixed(t)
    }

    #[cycle(types)]
    fn in_primary_type(&mut self, t: &mut PrimaryType) {
        match t {
            PrimaryType::Builtin { .. } | PrimaryType::Literal(_) | PrimaryType::Negative { .. } =>
                {}
            PrimaryType::Name(_) | PrimaryType::AnyFunction { .. } => {}
            PrimaryType::Parens { inner, .. } => self.in_type(inner),
            PrimaryType::Map { member, .. } => self.in_type(member),
            PrimaryType::Future { result, .. } => self.in_type(result),
            PrimaryType::Error { detail, .. } => self.in_type_if(detail),
            PrimaryType::Tuple { members, rest, .. } => {
                self.in_types(members);
                self.in_type_if(rest)
            }
            PrimaryType::ClosedRecord { fields, rest, .. } => {
                self.in_fields(fields);
                self.in_type_if(rest)
            }
            PrimaryType::OpenRecord { fields, .. } => self.in_fields(fields),
            PrimaryType::Function { params, result, .. } => {
                self.in_param_types(params);
                self.operand_if(result)
            }
        }
    }

    /// Goes through a type, if there is one.
    #[cycle(types)]
    pub fn in_type_if(&mut self, t: &mut Option<Box<TypeTree>>) {
        match t {
            Some(t) => self.in_type(t),
            None => {}
        }
    }

    #[cycle(types)]
    fn operand_if(&mut self, t: &mut Option<Box<TypeTree>>) {
        match t {
            Some(t) => self.type_operand(t),
            None => {}
        }
    }

    #[cycle(types)]
    fn in_types(&mut self, types: &mut [TypeTree]) {
        for t in types.iter_mut() {
            self.in_type(t);
        }
    }

    #[cycle(types)]
    fn in_fields(&mut self, fields: &mut [FieldTree]) {
        for f in fields.iter_mut() {
            self.in_type(&mut f.ty);
        }
    }

    #[cycle(types)]
    fn in_param_types(&mut self, p: &mut ParamTypes) {
        self.in_param_type_list(&mut p.params);
        self.in_type_if(&mut p.rest)
    }

    #[cycle(types)]
    fn in_param_type_list(&mut self, params: &mut [ParamType]) {
        for p in params.iter_mut() {
            self.in_type(&mut p.ty);
        }
    }

    /// Goes through the types of parameters.
    pub fn in_params(&mut self, p: &mut Params) {
        self.in_param_list(&mut p.params);
        match &mut p.rest {
            Some(rest) => self.in_type(&mut rest.ty),
            None => {}
        }
    }

    fn in_param_list(&mut self, params: &mut [Param]) {
        for p in params.iter_mut() {
            self.in_type(&mut p.ty);
        }
    }
}
