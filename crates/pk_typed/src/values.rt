// Typed expressions (C99 6.5).

ghost use Rattle.std.specs.Prelude.{◌≡◌};
ghost use Rattle.pk_typed.specs.Trees as tree;
ghost use Rattle.pk_typed.specs.Types.{type_of_place, type_of};
ghost use Rattle.pk_typed.specs.Views.{place_tree, value_tree, effect_tree, value_trees};

use pk_ctypes::{IntType, Op, Pos, result_type};

/// An object by its number, counted from 0: among the file's in order of declaration, or among its function's, parameters first.
#[derive(Clone, Copy)]
pub enum Variable {
    File(usize),
    Local(usize),
}

/// What is read or assigned, with its type: a scalar, or an element of an array, at its `[`.
#[derive(Drop)]
#[cycle(values)]
pub enum Place {
    Scalar(IntType, Variable),
    Element(IntType, Variable, Pos, Box<Value>),
}

/// An expression of an integer type.
#[derive(Drop)]
#[cycle(values)]
pub enum Value {
    Constant(IntType, i128),
    Read(Place),
    /// `=`, at the operator. The value is converted to the place's type.
    Assign(Pos, Place, Box<Value>),
    /// An operator with `=`. Both operands are converted to the type, but the count of a shift, and the result to the place's type.
    Update(Op, Pos, IntType, Place, Box<Value>),
    /// `++` or `--`, as the operator that adds or subtracts 1 in the type.
    Step {
        operator: Op,
        at: Pos,
        int_type: IntType,
        place: Place,
        /// Whether the value is the new one.
        is_prefix: bool,
    },
    /// A call, at the function's name. Each argument is converted to its parameter's type.
    Call {
        int_type: IntType,
        /// The function's number in the unit.
        function: usize,
        /// The call's number in its function.
        site: usize,
        at: Pos,
        arguments: Vec<Value>,
    },
    /// Any number of the type: a call of `__VERIFIER_nondet_T`.
    Any(IntType, Pos),
    /// The operand is converted to the type.
    Unary(Op, Pos, IntType, Box<Value>),
    /// A conversion: a cast, or the operator `+`.
    Convert(IntType, Box<Value>),
    /// Both operands are converted to the type, but the count of a shift.
    Binary {
        operator: Op,
        at: Pos,
        int_type: IntType,
        left: Box<Value>,
        right: Box<Value>,
    },
    /// `&&`, of type int.
    And {
        left: Box<Value>,
        right: Box<Value>,
    },
    /// `||`, of type int.
    Or {
        left: Box<Value>,
        right: Box<Value>,
    },
    /// `?:`. What is chosen is converted to the type.
    Conditional {
        int_type: IntType,
        condition: Box<Value>,
        if_true: Box<Value>,
        if_false: Box<Value>,
    },
    /// A comma.
    Then(Box<Effect>, Box<Value>),
}

/// An expression that is evaluated for its effect: one without a value, or one whose value isn't used. A cast to void is what it casts.
#[derive(Drop)]
#[cycle(values)]
pub enum Effect {
    Unused(Value),
    /// A call of a function that returns nothing.
    Call {
        function: usize,
        site: usize,
        at: Pos,
        arguments: Vec<Value>,
    },
    /// `__VERIFIER_assume`, at its name. The condition is converted to int.
    Assume(Pos, Box<Value>),
    /// `__pikos_assert`, at its name. The condition is converted to int.
    Assert(Pos, Box<Value>),
    /// `abort`, at its name.
    Abort(Pos),
    /// A comma.
    Then(Box<Effect>, Box<Effect>),
}

// Each ensures which tree it makes.
#[tactic(auto, unfolding(crate::specs::Views::place_tree))]
impl Place {
    pub fn scalar(int_type: IntType, variable: Variable) -> Place
        ensures { place_tree result ≡ tree.scalar int_type variable }
    {
        Place::Scalar(int_type, variable)
    }

    pub fn element(int_type: IntType, variable: Variable, at: Pos, index: Box<Value>) -> Place
        ensures { place_tree result ≡ tree.element int_type variable at (value_tree index.value) }
    {
        Place::Element(int_type, variable, at, index)
    }

    pub fn int_type(&self) -> IntType
        ensures { result ≡ type_of_place (place_tree self.now) }
    {
        match self {
            Place::Scalar(int_type, _) => *int_type,
            Place::Element(int_type, _, _, _) => *int_type,
        }
    }
}

#[tactic(auto, unfolding(crate::specs::Views::value_tree))]
impl Value {
    pub fn constant(int_type: IntType, number: i128) -> Value
        ensures { value_tree result ≡ tree.constant int_type number }
    {
        Value::Constant(int_type, number)
    }

    pub fn read(place: Place) -> Value
        ensures { value_tree result ≡ tree.read (place_tree place) }
    {
        Value::Read(place)
    }

    pub fn assign(at: Pos, place: Place, value: Box<Value>) -> Value
        ensures { value_tree result ≡ tree.assign at (place_tree place) (value_tree value.value) }
    {
        Value::Assign(at, place, value)
    }

    pub fn update(
        operator: Op,
        at: Pos,
        int_type: IntType,
        place: Place,
        value: Box<Value>,
    ) -> Value
        ensures { value_tree result
            ≡ tree.update operator at int_type (place_tree place) (value_tree value.value) }
    {
        Value::Update(operator, at, int_type, place, value)
    }

    /// `++` or `--`, before or after its operand.
    pub fn step(operator: Op, at: Pos, int_type: IntType, place: Place, is_prefix: bool) -> Value
        ensures { value_tree result ≡ tree.step operator at int_type (place_tree place) is_prefix }
    {
        Value::Step {
            operator,
            at,
            int_type,
            place,
            is_prefix,
        }
    }

    #[tactic(auto, using(crate::proofs::ViewLemmas::tree_of_call))]
    pub fn call(
        int_type: IntType,
        function: usize,
        site: usize,
        at: Pos,
        arguments: Vec<Value>,
    ) -> Value
        ensures { value_tree result ≡ tree.call int_type function site at (value_trees arguments.items) }
    {
        Value::Call {
            int_type,
            function,
            site,
            at,
            arguments,
        }
    }

    pub fn any(int_type: IntType, at: Pos) -> Value
        ensures { value_tree result ≡ tree.any int_type at }
    {
        Value::Any(int_type, at)
    }

    pub fn unary(operator: Op, at: Pos, int_type: IntType, operand: Box<Value>) -> Value
        ensures { value_tree result ≡ tree.unary operator at int_type (value_tree operand.value) }
    {
        Value::Unary(operator, at, int_type, operand)
    }

    pub fn convert(int_type: IntType, operand: Box<Value>) -> Value
        ensures { value_tree result ≡ tree.convert int_type (value_tree operand.value) }
    {
        Value::Convert(int_type, operand)
    }

    pub fn binary(
        operator: Op,
        at: Pos,
        int_type: IntType,
        left: Box<Value>,
        right: Box<Value>,
    ) -> Value
        ensures { value_tree result
            ≡ tree.binary operator at int_type (value_tree left.value) (value_tree right.value) }
    {
        Value::Binary {
            operator,
            at,
            int_type,
            left,
            right,
        }
    }

    pub fn and(left: Box<Value>, right: Box<Value>) -> Value
        ensures { value_tree result ≡ tree.and (value_tree left.value) (value_tree right.value) }
    {
        Value::And { left, right }
    }

    pub fn or(left: Box<Value>, right: Box<Value>) -> Value
        ensures { value_tree result ≡ tree.or (value_tree left.value) (value_tree right.value) }
    {
        Value::Or { left, right }
    }

    pub fn conditional(
        int_type: IntType,
        condition: Box<Value>,
        if_true: Box<Value>,
        if_false: Box<Value>,
    ) -> Value
        ensures { value_tree result
            ≡ tree.conditional int_type (value_tree condition.value) (value_tree if_true.value)
            (value_tree if_false.value) }
    {
        Value::Conditional {
            int_type,
            condition,
            if_true,
            if_false,
        }
    }

    /// A comma.
    pub fn then(first: Box<Effect>, second: Box<Value>) -> Value
        ensures { value_tree result ≡ tree.then_value (effect_tree first.value) (value_tree second.value) }
    {
        Value::Then(first, second)
    }

    /// The type of the expression.
    #[tactic(auto, unfolding(crate::specs::Views::value_tree, crate::specs::Types::type_of))]
    pub fn int_type(&self) -> IntType
        ensures { result ≡ type_of (value_tree self.now) }
    {
        let mut value = self;
        loop {
            match value {
                Value::Constant(int_type, _) => return *int_type,
                Value::Read(place) => return place.int_type(),
                Value::Assign(_, place, _) => return place.int_type(),
                Value::Update(_, _, _, place, _) => return place.int_type(),
                Value::Step { place, .. } => return place.int_type(),
                Value::Call { int_type, .. } => return *int_type,
                Value::Any(int_type, _) => return *int_type,
                Value::Unary(operator, _, int_type, _) => return result_type(*operator, *int_type),
                Value::Convert(int_type, _) => return *int_type,
                Value::Binary {
                    operator,
                    int_type,
                    ..
                } => return result_type(*operator, *int_type),
                Value::And { .. } | Value::Or { .. } => return IntType::Int,
                Value::Conditional { int_type, .. } => return *int_type,
                Value::Then(_, second) => value = second,
            }
        }
    }
}

#[tactic(auto, unfolding(crate::specs::Views::effect_tree))]
impl Effect {
    pub fn unused(value: Value) -> Effect
        ensures { effect_tree result ≡ tree.unused (value_tree value) }
    {
        Effect::Unused(value)
    }

    #[tactic(auto, using(crate::proofs::ViewLemmas::tree_of_run))]
    pub fn call(function: usize, site: usize, at: Pos, arguments: Vec<Value>) -> Effect
        ensures { effect_tree result ≡ tree.run function site at (value_trees arguments.items) }
    {
        Effect::Call {
            function,
            site,
            at,
            arguments,
        }
    }

    pub fn assume(at: Pos, condition: Box<Value>) -> Effect
        ensures { effect_tree result ≡ tree.assume at (value_tree condition.value) }
    {
        Effect::Assume(at, condition)
    }

    pub fn assert(at: Pos, condition: Box<Value>) -> Effect
        ensures { effect_tree result ≡ tree.assert at (value_tree condition.value) }
    {
        Effect::Assert(at, condition)
    }

    pub fn abort(at: Pos) -> Effect
        ensures { effect_tree result ≡ tree.abort at }
    {
        Effect::Abort(at)
    }

    /// A comma.
    pub fn then(first: Box<Effect>, second: Box<Effect>) -> Effect
        ensures { effect_tree result ≡ tree.then_effect (effect_tree first.value) (effect_tree second.value) }
    {
        Effect::Then(first, second)
    }
}
