//! The names of faults in printed lines.
ghost use Rattle.std.specs.Prelude.{◌≡◌};
ghost use Rattle.wt_fault_names.specs.FaultNames as spec;

use wt_ddl::DdlFault;
use wt_grammar::QueryFault;
use wt_lex::LexFault;
use wt_query_plan::BuildFault;

pub fn lexical_name(fault: LexFault) -> &'static str
    ensures { result.now ≡ spec.lexical_name fault }
{
    match fault {
        LexFault::NotText => "NotText",
        LexFault::BadCharacter => "BadCharacter",
        LexFault::OpenQuote => "OpenQuote",
        LexFault::NumberRange => "NumberRange",
        LexFault::TooLong => "TooLong",
    }
}

pub fn schema_name(fault: DdlFault) -> &'static str
    ensures { result.now ≡ spec.schema_name fault }
{
    match fault {
        DdlFault::Syntax => "Syntax",
        DdlFault::UnsupportedStatement => "UnsupportedStatement",
        DdlFault::UnsupportedType => "UnsupportedType",
        DdlFault::UnsupportedClause => "UnsupportedClause",
        DdlFault::DuplicateTable => "DuplicateTable",
        DdlFault::DuplicateColumn => "DuplicateColumn",
        DdlFault::UnknownTable => "UnknownTable",
        DdlFault::UnknownColumn => "UnknownColumn",
        DdlFault::SecondPrimaryKey => "SecondPrimaryKey",
        DdlFault::ReferenceNotKey => "ReferenceNotKey",
        DdlFault::ReferenceTypes => "ReferenceTypes",
        DdlFault::ReferenceWidth => "ReferenceWidth",
        DdlFault::TooManyColumns => "TooManyColumns",
        DdlFault::TooManyTables => "TooManyTables",
    }
}

pub fn query_name(fault: QueryFault) -> &'static str
    ensures { result.now ≡ spec.query_name fault }
{
    match fault {
        QueryFault::Syntax => "Syntax",
        QueryFault::NotSelect => "NotSelect",
        QueryFault::With => "With",
        QueryFault::GroupBy => "GroupBy",
        QueryFault::Having => "Having",
        QueryFault::SetOperation => "SetOperation",
        QueryFault::OrderBy => "OrderBy",
        QueryFault::Limit => "Limit",
        QueryFault::Window => "Window",
        QueryFault::Exists => "Exists",
        QueryFault::NotInSubquery => "NotInSubquery",
        QueryFault::InUnderOr => "InUnderOr",
        QueryFault::Subquery => "Subquery",
        QueryFault::Arithmetic => "Arithmetic",
        QueryFault::Function => "Function",
        QueryFault::Like => "Like",
        QueryFault::Case => "Case",
        QueryFault::Cast => "Cast",
        QueryFault::Parameter => "Parameter",
        QueryFault::Literal => "Literal",
        QueryFault::FullJoin => "FullJoin",
        QueryFault::CrossJoin => "CrossJoin",
        QueryFault::NaturalJoin => "NaturalJoin",
        QueryFault::Using => "Using",
        QueryFault::CommaJoin => "CommaJoin",
        QueryFault::TooDeep => "TooDeep",
        QueryFault::TooMany => "TooMany",
        QueryFault::TooLong => "TooLong",
    }
}

pub fn build_name(fault: BuildFault) -> &'static str
    ensures { result.now ≡ spec.build_name fault }
{
    match fault {
        BuildFault::UnknownTable => "UnknownTable",
        BuildFault::DuplicateAlias => "DuplicateAlias",
        BuildFault::ColumnListWidth => "ColumnListWidth",
        BuildFault::UnknownColumn => "UnknownColumn",
        BuildFault::CorrelatedColumn => "CorrelatedColumn",
        BuildFault::AmbiguousColumn => "AmbiguousColumn",
        BuildFault::TypeMismatch => "TypeMismatch",
        BuildFault::ConditionWithoutColumn => "ConditionWithoutColumn",
        BuildFault::InWidth => "InWidth",
        BuildFault::OnLeftCondition => "OnLeftCondition",
        BuildFault::OnMixedCondition => "OnMixedCondition",
        BuildFault::NoJoinEquality => "NoJoinEquality",
        BuildFault::TooWide => "TooWide",
    }
}
