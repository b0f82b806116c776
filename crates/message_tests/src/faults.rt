//! Faults of messages, in tables. A message stands in one line, with `'` for `"`.
//!
//! A line `= TEXT` names a part of the message. Each line below it says what is told of the message
//! with that part exchanged: why, where, and the text in its place. Of accounts and amounts, which
//! stand in several places, the part is named beside the table.

/// A payment of version 2.0 that gives all that a payment can give.
pub const PAY: &str =
    "{'ReqPay':{'Head':{'msgId':'A1','orgId':'alpha','ts':'2024-01-01T05:30:00+05:30','ver':'2.0'},'Payees':{'Payee':[{'Ac':{'Detail':[{'name':'IFSC','value':'BBBB0000000'},{'name':'ACNUM','value':'2'}],'addrType':'ACCOUNT'},'Amount':{'curr':'INR','value':'30'},'addr':'bob@beta'}]},'Payer':{'Ac':{'Detail':[{'name':'IFSC','value':'AAAA0000000'},{'name':'ACNUM','value':'1'}],'addrType':'ACCOUNT'},'Amount':{'curr':'INR','value':'30.00'},'addr':'ann@alpha'},'Txn':{'Rules':{'Rule':[{'name':'OTHER','value':''},{'name':'EXPIREAFTER','value':'5'}]},'id':'T1','initiationMode':'01','note':'tea','purpose':'05','type':'PAY'}}}";

/// A yes that gives both accounts.
pub const ANSWER: &str =
    "{'RespAuthDetails':{'Head':{'msgId':'A1','orgId':'alpha','ts':'2024-01-01T05:30:00+05:30','ver':'2.0'},'Payees':{'Payee':[{'Ac':{'Detail':[{'name':'IFSC','value':'BBBB0000000'},{'name':'ACNUM','value':'2'}],'addrType':'ACCOUNT'}}]},'Payer':{'Ac':{'Detail':[{'name':'ACNUM','value':'1'},{'name':'IFSC','value':'AAAA0000000'}],'addrType':'ACCOUNT'},'Amount':{'curr':'INR','value':'30.0'}},'Resp':{'reqMsgId':'M1','result':'SUCCESS'},'Txn':{'id':'C1'}}}";

/// A question for a status.
pub const CHECK: &str =
    "{'ReqChkTxn':{'Head':{'msgId':'A1','orgId':'alpha','ts':'2024-01-01T05:30:00+05:30','ver':'2.0'},'Txn':{'id':'T1'}}}";

/// The answer to a confirmation.
pub const CONFIRMED: &str =
    "{'RespTxnConfirmation':{'Head':{'msgId':'A1','orgId':'alpha','ts':'2024-01-01T05:30:00+05:30','ver':'2.0'},'Resp':{'reqMsgId':'M1'},'Txn':{'id':'T1'}}}";

/// A message that a PSP may not send.
pub const FOREIGN: &str =
    "{'RespPay':{'Head':{'msgId':'A1','orgId':'alpha','ts':'2024-01-01T05:30:00+05:30','ver':'2.0'}}}";

/// Of each message.
pub const HEAD_FAULTS: &str = "= 'Head':{
MISSING Head 'x':{
= 'Head':{'msgId':'A1','orgId':'alpha','ts':'2024-01-01T05:30:00+05:30','ver':'2.0'}
KIND Head 'Head':[]
= 'msgId':'A1'
MISSING Head.msgId 'x':'A1'
KIND Head.msgId 'msgId':1
KIND Head.msgId 'msgId':null
VALUE Head.msgId 'msgId':''
VALUE Head.msgId 'msgId':'a b'
VALUE Head.msgId 'msgId':'aaaaaaaaaaaaaaaaaaaaaaaaaaaaaaaaaaaa'
= 'orgId':'alpha'
MISSING Head.orgId 'x':'alpha'
KIND Head.orgId 'orgId':1
KIND Head.orgId 'orgId':null
VALUE Head.orgId 'orgId':''
VALUE Head.orgId 'orgId':'aaaaaaaaaaaaaaaaaaaaa'
= 'ts':'2024-01-01T05:30:00+05:30'
MISSING Head.ts 'x':'2024-01-01T05:30:00+05:30'
KIND Head.ts 'ts':1
KIND Head.ts 'ts':null
VALUE Head.ts 'ts':'2024-02-30T00:00:00Z'
VALUE Head.ts 'ts':'1969-12-31T23:59:59Z'
VALUE Head.ts 'ts':'2024-01-01'
= 'ver':'2.0'
MISSING Head.ver 'x':'2.0'
KIND Head.ver 'ver':1
KIND Head.ver 'ver':null
VALUE Head.ver 'ver':'3.0'
VALUE Head.ver 'ver':'1'";

/// Of a payment.
pub const PAY_FAULTS: &str = "= 'Txn':{
MISSING Txn 'x':{
= 'Txn':{'Rules':{'Rule':[{'name':'OTHER','value':''},{'name':'EXPIREAFTER','value':'5'}]},'id':'T1','initiationMode':'01','note':'tea','purpose':'05','type':'PAY'}
KIND Txn 'Txn':'T1'
= 'id':'T1'
MISSING Txn.id 'x':'T1'
KIND Txn.id 'id':null
VALUE Txn.id 'id':''
VALUE Txn.id 'id':'T 1'
= 'type':'PAY'
MISSING Txn.type 'x':'PAY'
KIND Txn.type 'type':null
VALUE Txn.type 'type':'pay'
VALUE Txn.type 'type':'DEBIT'
= 'note':'tea'
KIND Txn.note 'note':3
KIND Txn.note 'note':null
VALUE Txn.note 'note':'a\\nb'
VALUE Txn.note 'note':'nnnnnnnnnnnnnnnnnnnnnnnnnnnnnnnnnnnnnnnnnnnnnnnnnnnnnnnnnnnnnnnnnnnnnnnnnnnnnnnnnnnnnnnnnnnnnnnnnnnnn'
= 'Rules':{'Rule':[{'name':'OTHER','value':''},{'name':'EXPIREAFTER','value':'5'}]}
KIND Txn.Rules 'Rules':[]
MISSING Txn.Rules.Rule 'Rules':{}
KIND Txn.Rules.Rule 'Rules':{'Rule':{}}
KIND Txn.Rules.Rule[0] 'Rules':{'Rule':[[]]}
MISSING Txn.Rules.Rule[0].name 'Rules':{'Rule':[{'value':'1'}]}
KIND Txn.Rules.Rule[0].name 'Rules':{'Rule':[{'name':true,'value':'1'}]}
MISSING Txn.Rules.Rule[1].value 'Rules':{'Rule':[{'name':'x','value':'1'},{'name':'y'}]}
KIND Txn.Rules.Rule[0].value 'Rules':{'Rule':[{'name':'x','value':1}]}
COUNT Txn.Rules.Rule 'Rules':{'Rule':[{'name':'EXPIREAFTER','value':'1'},{'name':'EXPIREAFTER','value':'1'}]}
VALUE Txn.Rules.Rule[0].value 'Rules':{'Rule':[{'name':'EXPIREAFTER','value':''}]}
VALUE Txn.Rules.Rule[0].value 'Rules':{'Rule':[{'name':'EXPIREAFTER','value':'0'}]}
VALUE Txn.Rules.Rule[0].value 'Rules':{'Rule':[{'name':'EXPIREAFTER','value':'64801'}]}
VALUE Txn.Rules.Rule[0].value 'Rules':{'Rule':[{'name':'EXPIREAFTER','value':'000001'}]}
VALUE Txn.Rules.Rule[0].value 'Rules':{'Rule':[{'name':'EXPIREAFTER','value':'1 '}]}
VALUE Txn.Rules.Rule[0].value 'Rules':{'Rule':[{'name':'EXPIREAFTER','value':'+1'}]}
VALUE Txn.Rules.Rule[0].value 'Rules':{'Rule':[{'name':'EXPIREAFTER','value':'x'}]}
= 'initiationMode':'01'
KIND Txn.initiationMode 'initiationMode':1
VALUE Txn.initiationMode 'initiationMode':''
VALUE Txn.initiationMode 'initiationMode':'5'
VALUE Txn.initiationMode 'initiationMode':'005'
VALUE Txn.initiationMode 'initiationMode':'0a'
= 'purpose':'05'
KIND Txn.purpose 'purpose':1
VALUE Txn.purpose 'purpose':''
VALUE Txn.purpose 'purpose':'5'
VALUE Txn.purpose 'purpose':'005'
VALUE Txn.purpose 'purpose':'0a'
= 'Payer':{
MISSING Payer 'x':{
= 'addr':'ann@alpha'
MISSING Payer.addr 'x':1
KIND Payer.addr 'addr':1
VALUE Payer.addr 'addr':'ann'
VALUE Payer.addr 'addr':'@alpha'
VALUE Payer.addr 'addr':'ann@Alpha'
VALUE Payer.addr 'addr':'ann@1a'
VALUE Payer.addr 'addr':'an n@alpha'
= 'Payees':{
MISSING Payees 'x':{
= 'Payees':{'Payee':[{'Ac':{'Detail':[{'name':'IFSC','value':'BBBB0000000'},{'name':'ACNUM','value':'2'}],'addrType':'ACCOUNT'},'Amount':{'curr':'INR','value':'30'},'addr':'bob@beta'}]}
KIND Payees 'Payees':[]
MISSING Payees.Payee 'Payees':{}
KIND Payees.Payee 'Payees':{'Payee':{}}
COUNT Payees.Payee 'Payees':{'Payee':[]}
COUNT Payees.Payee 'Payees':{'Payee':[1,2]}
KIND Payees.Payee[0] 'Payees':{'Payee':[1]}
= 'addr':'bob@beta'
MISSING Payees.Payee[0].addr 'x':1
KIND Payees.Payee[0].addr 'addr':[]
VALUE Payees.Payee[0].addr 'addr':'bob'";

/// Of a yes or no.
pub const ANSWER_FAULTS: &str = "= 'Resp':{
MISSING Resp 'x':{
= 'Resp':{'reqMsgId':'M1','result':'SUCCESS'}
KIND Resp 'Resp':1
= 'reqMsgId':'M1'
MISSING Resp.reqMsgId 'x':'M1'
KIND Resp.reqMsgId 'reqMsgId':{}
VALUE Resp.reqMsgId 'reqMsgId':''
= 'result':'SUCCESS'
MISSING Resp.result 'x':'SUCCESS'
KIND Resp.result 'result':{}
VALUE Resp.result 'result':''
VALUE Resp.result 'result':'DEEMED'
= 'Txn':{
MISSING Txn 'x':{
= 'Txn':{'id':'C1'}
KIND Txn 'Txn':[]
= 'id':'C1'
MISSING Txn.id 'x':1
KIND Txn.id 'id':1
VALUE Txn.id 'id':'/'
= 'Payer':{
MISSING Payer 'x':{
= 'Payees':{'Payee':[{'Ac':{'Detail':[{'name':'IFSC','value':'BBBB0000000'},{'name':'ACNUM','value':'2'}],'addrType':'ACCOUNT'}}]}
KIND Payees 'Payees':null
MISSING Payees.Payee 'Payees':{}
KIND Payees.Payee 'Payees':{'Payee':''}
COUNT Payees.Payee 'Payees':{'Payee':[]}
COUNT Payees.Payee 'Payees':{'Payee':[{},{}]}
KIND Payees.Payee[0] 'Payees':{'Payee':[[]]}";

/// Of a question for a status.
pub const CHECK_FAULTS: &str = "= 'Txn':{
MISSING Txn 'x':{
= 'Txn':{'id':'T1'}
KIND Txn 'Txn':[]
= 'id':'T1'
MISSING Txn.id 'x':1
KIND Txn.id 'id':1
VALUE Txn.id 'id':'/'";

/// Of the answer to a confirmation.
pub const CONFIRMED_FAULTS: &str = "= 'Resp':{
MISSING Resp 'x':{
= 'Resp':{'reqMsgId':'M1'}
KIND Resp 'Resp':''
= 'reqMsgId':'M1'
MISSING Resp.reqMsgId 'x':1
KIND Resp.reqMsgId 'reqMsgId':1
VALUE Resp.reqMsgId 'reqMsgId':'M 1'
= 'Txn':{
MISSING Txn 'x':{
= 'Txn':{'id':'T1'}
KIND Txn 'Txn':[]
= 'id':'T1'
MISSING Txn.id 'x':1
KIND Txn.id 'id':1
VALUE Txn.id 'id':'/'";

/// The payer's account as a payment gives it.
pub const PAYER_ACCOUNT: &str =
    "'Ac':{'Detail':[{'name':'IFSC','value':'AAAA0000000'},{'name':'ACNUM','value':'1'}],'addrType':'ACCOUNT'}";

/// The payer's account as a yes gives it.
pub const ANSWER_ACCOUNT: &str =
    "'Ac':{'Detail':[{'name':'ACNUM','value':'1'},{'name':'IFSC','value':'AAAA0000000'}],'addrType':'ACCOUNT'}";

/// The payee's account as both give it.
pub const PAYEE_ACCOUNT: &str =
    "'Ac':{'Detail':[{'name':'IFSC','value':'BBBB0000000'},{'name':'ACNUM','value':'2'}],'addrType':'ACCOUNT'}";

/// Of an account in any place.
pub const ACCOUNT_FAULTS: &str = "KIND Ac 'Ac':7
KIND Ac 'Ac':null
MISSING Ac.Detail 'Ac':{'addrType':'ACCOUNT'}
KIND Ac.Detail 'Ac':{'Detail':{},'addrType':'ACCOUNT'}
COUNT Ac.Detail 'Ac':{'Detail':[],'addrType':'ACCOUNT'}
KIND Ac.Detail[2] 'Ac':{'Detail':[{'name':'IFSC','value':'AAAA0000000'},{'name':'ACNUM','value':'1'},5],'addrType':'ACCOUNT'}
MISSING Ac.Detail[0].name 'Ac':{'Detail':[{'value':'x'},{'name':'IFSC','value':'AAAA0000000'},{'name':'ACNUM','value':'1'}],'addrType':'ACCOUNT'}
KIND Ac.Detail[0].name 'Ac':{'Detail':[{'name':1,'value':'x'},{'name':'IFSC','value':'AAAA0000000'},{'name':'ACNUM','value':'1'}],'addrType':'ACCOUNT'}
MISSING Ac.Detail[2].value 'Ac':{'Detail':[{'name':'IFSC','value':'AAAA0000000'},{'name':'ACNUM','value':'1'},{'name':'x'}],'addrType':'ACCOUNT'}
KIND Ac.Detail[2].value 'Ac':{'Detail':[{'name':'IFSC','value':'AAAA0000000'},{'name':'ACNUM','value':'1'},{'name':'x','value':[]}],'addrType':'ACCOUNT'}
COUNT Ac.Detail 'Ac':{'Detail':[{'name':'IFSC','value':'AAAA0000000'}],'addrType':'ACCOUNT'}
COUNT Ac.Detail 'Ac':{'Detail':[{'name':'IFSC','value':'AAAA0000000'},{'name':'ACNUM','value':'1'},{'name':'IFSC','value':'AAAA0000000'}],'addrType':'ACCOUNT'}
COUNT Ac.Detail 'Ac':{'Detail':[{'name':'IFSC','value':'AAAA0000000'},{'name':'ACNUM','value':'1'},{'name':'ACNUM','value':'1'}],'addrType':'ACCOUNT'}
VALUE Ac.Detail[0].value 'Ac':{'Detail':[{'name':'ACNUM','value':'1-1'},{'name':'IFSC','value':'AAAA0000000'}],'addrType':'ACCOUNT'}
VALUE Ac.Detail[1].value 'Ac':{'Detail':[{'name':'ACNUM','value':'1'},{'name':'IFSC','value':'AAAa0000000'}],'addrType':'ACCOUNT'}
VALUE Ac.Detail[1].value 'Ac':{'Detail':[{'name':'ACNUM','value':''},{'name':'IFSC','value':'AAAA000000'}],'addrType':'ACCOUNT'}";

/// The payer's amount as a payment gives it.
pub const PAYER_AMOUNT: &str = "'Amount':{'curr':'INR','value':'30.00'}";

/// The payer's amount as a yes gives it.
pub const ANSWER_AMOUNT: &str = "'Amount':{'curr':'INR','value':'30.0'}";

/// The payee's amount as a payment gives it.
pub const PAYEE_AMOUNT: &str = "'Amount':{'curr':'INR','value':'30'}";

/// Of an amount in any place.
pub const AMOUNT_FAULTS: &str = "KIND Amount 'Amount':'30.00'
MISSING Amount.curr 'Amount':{'value':'30.00'}
KIND Amount.curr 'Amount':{'curr':{},'value':'30.00'}
VALUE Amount.curr 'Amount':{'curr':'inr','value':'30.00'}
MISSING Amount.value 'Amount':{'curr':'INR'}
KIND Amount.value 'Amount':{'curr':'INR','value':30.00}
VALUE Amount.value 'Amount':{'curr':'INR','value':'30.000'}
VALUE Amount.value 'Amount':{'curr':'INR','value':''}
VALUE Amount.value 'Amount':{'curr':'INR','value':'-1'}
VALUE Amount.value 'Amount':{'curr':'INR','value':'1e3'}
VALUE Amount.value 'Amount':{'curr':'INR','value':'10000000000000.01'}
VALUE Amount.value 'Amount':{'curr':'INR','value':'.5'}
VALUE Amount.value 'Amount':{'curr':'INR','value':'30.'}";

/// Of an amount that must be there.
pub const AMOUNT_MISSING: &str = "MISSING Amount 'x':1";

/// Of a payee's amount: it has to be the payer's.
pub const AMOUNT_DIFFERS: &str = "DIFFERS Amount.value 'Amount':{'curr':'INR','value':'30.01'}";
