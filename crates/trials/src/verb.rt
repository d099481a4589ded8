// The calls of the library, by what they fill, and their names in a line.
#[derive(Clone, Copy)]
pub enum Verb {
    FillCodes(CodesCall),
    FillOctets(OctetsCall),
    FillQuantities(QuantitiesCall),
}

#[derive(Clone, Copy)]
pub enum CodesCall {
    ReadShape,
    ReadVelocity,
    CodeShape,
    CodeVelocity,
    Code,
}

#[derive(Clone, Copy)]
pub enum OctetsCall {
    WriteShape,
    WriteVelocity,
    Choose,
}

#[derive(Clone, Copy)]
pub enum QuantitiesCall {
    ReportShape,
    ReportVelocity,
    Report,
}

pub fn named(word: &[u8]) -> Option<Verb> {
    match word {
        b"read-shape" => Some(Verb::FillCodes(CodesCall::ReadShape)),
        b"read-velocity" => Some(Verb::FillCodes(CodesCall::ReadVelocity)),
        b"code-shape" => Some(Verb::FillCodes(CodesCall::CodeShape)),
        b"code-velocity" => Some(Verb::FillCodes(CodesCall::CodeVelocity)),
        b"code" => Some(Verb::FillCodes(CodesCall::Code)),
        b"write-shape" => Some(Verb::FillOctets(OctetsCall::WriteShape)),
        b"write-velocity" => Some(Verb::FillOctets(OctetsCall::WriteVelocity)),
        b"choose" => Some(Verb::FillOctets(OctetsCall::Choose)),
        b"report-shape" => Some(Verb::FillQuantities(QuantitiesCall::ReportShape)),
        b"report-velocity" => Some(Verb::FillQuantities(QuantitiesCall::ReportVelocity)),
        b"report" => Some(Verb::FillQuantities(QuantitiesCall::Report)),
        _ => None,
    }
}
